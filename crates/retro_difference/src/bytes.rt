//! Comparisons of texts that are given as two parts each. No copy is made.
ghost use Rattle.std.specs.Prelude.{◌≡◌, ◌↔◌, ◌++◌, ◌≤◌, IsTrue, length};

/// Returns whether the bytes are equal. This is `==`, as a function of its own for the prover: its
/// contract says that the result is `true` exactly if the bytes are equal.
#[tactic(auto, using(retro_tree::proofs::Sames::sames))]
pub(crate) fn same_bytes(one: &[u8], other: &[u8]) -> bool
    ensures { IsTrue result ↔ (one.now ≡ other.now) }
{
    one == other
}

/// Returns whether `whole` is `front` followed by `end`.
#[tactic(auto, using(crate::proofs::TwoParts::joining))]
fn is_joined(whole: &[u8], front: &[u8], end: &[u8]) -> bool
    ensures { IsTrue result ↔ (whole.now ≡ front.now ++ end.now) }
{
    if whole.len() < front.len() || whole.len() - front.len() != end.len() {
        return false;
    }
    let rest = &whole[front.len()..];
    if !same_bytes(rest, end) {
        return false;
    }
    let start = &whole[..front.len()];
    same_bytes(start, front)
}

/// Returns whether `front` followed by `end` equals `other` followed by `other_end`. `front` must
/// be no longer than `other`. Compares the lengths first, and the last parts next.
#[tactic(auto, using(crate::proofs::TwoParts::ending))]
fn same_after_front(front: &[u8], end: &[u8], other: &[u8], other_end: &[u8]) -> bool
    requires { length front.now ≤ length other.now }
    ensures { IsTrue result ↔ (front.now ++ end.now ≡ other.now ++ other_end.now) }
{
    let (start, rest) = other.split_at(front.len());
    if !is_joined(end, rest, other_end) {
        return false;
    }
    same_bytes(start, front)
}

/// Returns whether `front` followed by `end` equals `other` followed by `other_end`.
pub(crate) fn same_in_parts(front: &[u8], end: &[u8], other: &[u8], other_end: &[u8]) -> bool
    ensures { IsTrue result ↔ (front.now ++ end.now ≡ other.now ++ other_end.now) }
{
    if front.len() <= other.len() {
        same_after_front(front, end, other, other_end)
    } else {
        same_after_front(other, other_end, front, end)
    }
}
