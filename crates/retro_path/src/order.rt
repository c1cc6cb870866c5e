//! The order of the texts of paths.
ghost use Rattle.std.specs.Prelude.{◌≡◌, ◌<◌, ◌≤◌};
ghost use Rattle.std.specs.Cmp.Lexicographic.{slice_cmp};
ghost use Rattle.retro_path.specs.inner.PathText.{slash_first};

use std::cmp::Ordering;

/// The number of bytes that are compared at once, and then that of those in which texts differ.
const LONG_CHUNK: usize = 16;

const SHORT_CHUNK: usize = 4;

/// Compares two bytes. A slash is the least.
fn byte_order(x: u8, y: u8) -> Ordering
    ensures { result ≡ slash_first x y }
{
    if x == y {
        Ordering::Equal
    } else if x == b'/' {
        Ordering::Less
    } else if y == b'/' {
        Ordering::Greater
    } else {
        x.cmp(&y)
    }
}

/// Returns what is left of two texts after chunks of `N` bytes in which they are equal, `N` being
/// from 1 to 64.
fn after_equal<'t, const N: usize>(a: &'t [u8], b: &'t [u8]) -> (&'t [u8], &'t [u8])
    requires some { 0 < N }
    requires few { N ≤ 64 }
    ensures { slice_cmp slash_first result.0.now result.1.now
        ≡ slice_cmp slash_first a.now b.now }
{
    let (mut left, mut right) = (a, b);
    while let (Some((x, rest_of_left)), Some((y, rest_of_right))) = (
        left.split_first_chunk::<N>(),
        right.split_first_chunk::<N>(),
    ) {
        if x != y {
            break;
        }
        left = rest_of_left;
        right = rest_of_right;
    }
    (left, right)
}

/// Compares two texts at the first byte in which they differ. A slash is less than every other
/// byte, and a prefix is less than the whole.
pub(crate) fn text_order(a: &[u8], b: &[u8]) -> Ordering
    ensures { result ≡ slice_cmp slash_first a.now b.now }
{
    let (left, right) = after_equal::<LONG_CHUNK>(a, b);
    let (left, right) = after_equal::<SHORT_CHUNK>(left, right);
    bytewise_order(left, right)
}

/// Compares two texts byte by byte.
fn bytewise_order(a: &[u8], b: &[u8]) -> Ordering
    ensures { result ≡ slice_cmp slash_first a.now b.now }
{
    let (mut left, mut right) = (a, b);
    loop {
        match left {
            [] if right.is_empty() => return Ordering::Equal,
            [] => return Ordering::Less,
            [x, rest_of_left @ ..] => match right {
                [] => return Ordering::Greater,
                [y, rest_of_right @ ..] => match byte_order(*x, *y) {
                    Ordering::Less => return Ordering::Less,
                    Ordering::Equal => {
                        left = rest_of_left;
                        right = rest_of_right;
                    }
                    Ordering::Greater => return Ordering::Greater,
                },
            },
        }
    }
}
