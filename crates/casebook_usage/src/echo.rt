//! The options of bash's `echo`. Retro's shell has `-n` alone.
ghost use Rattle.std.specs.Prelude.{◌≡◌, map};
ghost use Rattle.casebook_usage.specs.Obstacles.{begins_with_echo_option, has_other_echo_option};
ghost use Rattle.casebook_usage.specs.Obstacles.{are_echo_letters, is_echo_option};
ghost use Rattle.casebook_usage.specs.Shape.{shape_view};

use crate::shape::Shape;

/// Returns whether all bytes are letters of options of bash's `echo`.
fn are_echo_letters(letters: &[u8]) -> bool
    ensures { result ≡ are_echo_letters letters.now }
{
    letters.iter().all(|letter| b"neE".contains(letter))
}

/// Returns whether bash's `echo` reads a first field as options: a dash, and letters of n, e and E.
pub(crate) fn is_echo_option(field: &str) -> bool
    ensures { result ≡ is_echo_option field.now }
{
    match field.as_bytes() {
        [b'-', letters @ ..] if !letters.is_empty() => are_echo_letters(letters),
        _ => false,
    }
}

/// Returns whether bash's `echo` may read the first field of these words as options.
fn begins_with_echo_option(words: &[Shape]) -> bool
    ensures { result ≡ begins_with_echo_option (map shape_view words.now) }
{
    match words {
        [] => false,
        [word, ..] => word.may_be_echo_option(),
    }
}

/// Returns whether bash's `echo` may read another option than a first `-n`.
pub(crate) fn has_other_echo_option(words: &[Shape]) -> bool
    ensures { result ≡ has_other_echo_option (map shape_view words.now) }
{
    match words {
        [] => false,
        [word, rest @ ..] => {
            if word.is_no_newline() {
                begins_with_echo_option(rest)
            } else {
                word.may_be_echo_option()
            }
        }
    }
}
