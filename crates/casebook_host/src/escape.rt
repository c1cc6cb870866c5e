//! Escapes in the fields of a mount.
ghost use Rattle.std.specs.Prelude.{◌≡◌, IfOk, option_map};
ghost use Rattle.casebook_host.specs.Escapes.{escape_of, is_digit_to, unescaped};

use crate::NoMem;
use std::alloc::Global;

/// Returns whether a byte is a digit, up to another one.
fn is_digit_to(last: u8, byte: u8) -> bool
    ensures { result ≡ is_digit_to last byte }
{
    b'0' <= byte && byte <= last
}

/// Returns the byte that an escape at the front of a text stands for, and what follows the escape.
fn escape_of<'t>(text: &'t [u8]) -> Option<(u8, &'t [u8])>
    ensures { option_map (λ escape. (escape.0, escape.1.now)) result ≡ escape_of text.now }
{
    match text {
        [b'\\', a, b, c, rest @ ..]
            if is_digit_to(b'3', *a) && is_digit_to(b'7', *b) && is_digit_to(b'7', *c) => {
            Some(((*a - b'0') * 64 + (*b - b'0') * 8 + (*c - b'0'), rest))
        }
        _ => None,
    }
}

/// Returns the text that a field is: each backslash with three octal digits is the byte that they
/// say.
pub(crate) fn unescaped(alloc: Global, field: &[u8]) -> Result<Vec<u8>, NoMem>
    ensures { IfOk result (λ text. text.items ≡ unescaped field.now) }
{
    let mut text = Vec::new(alloc);
    let mut rest = field;
    while let [first, more @ ..] = rest {
        match escape_of(rest) {
            Some((byte, after)) => {
                text.push(byte)?;
                rest = after;
            }
            None => {
                text.push(*first)?;
                rest = more;
            }
        }
    }
    Ok(text)
}
