//! Texts that are split at an ASCII character.
ghost use Rattle.std.specs.Prelude.{◌≡◌, ◌<◌, ◌==◌, IfOk, map, option_map};
ghost use Rattle.std.specs.List.{before_first, slice_split};
ghost use Rattle.casebook_text.specs.Splitting.{cut_at};

use crate::NoMem;
use std::alloc::Global;

/// Returns what comes before and after the first of these characters, or `None` if there is none.
pub(crate) fn cut_at(text: &str, c: char) -> Option<(&str, &str)>
    requires { c < 128 }
    ensures { option_map (λ p. (p.0.now, p.1.now)) result ≡ cut_at c text.now }
{
    text.split_once(c)
}

/// Returns what comes before the first of these characters, or the whole text if there is none.
pub(crate) fn before_first(text: &str, c: char) -> &str
    requires { c < 128 }
    ensures { result.now ≡ before_first (λ b. b == c) text.now }
{
    match cut_at(text, c) {
        Some((before, _after)) => before,
        None => text,
    }
}

/// Returns the parts of a text between these characters, empty ones too.
pub(crate) fn split_at(alloc: Global, text: &str, c: char) -> Result<Vec<&str>, NoMem>
    requires { c < 128 }
    ensures { IfOk result (λ v. map (λ s. s.now) v.items ≡ slice_split (λ b. b == c) text.now) }
{
    text.split(c).collect(alloc)
}
