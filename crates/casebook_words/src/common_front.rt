//! The lines at the fronts of two texts that are the same.
ghost use Rattle.std.specs.Prelude.{◌≡◌, MatchOption};
ghost use Rattle.casebook_words.specs.Lines.{texts_in};
ghost use Rattle.casebook_words.specs.Difference.{same_lines};
ghost use Rattle.casebook_words.specs.inner.Fronts.{IsRest, StepTogether};

use crate::first_line::split_line;

/// What is left of two texts after the lines at their fronts that are the same.
#[derive(Drop)]
pub(crate) struct Rests<'a> {
    /// How many lines at the fronts are the same.
    pub(crate) before: usize,
    /// What the old text has after them.
    pub(crate) old: &'a [u8],
    /// What the new text has after them.
    pub(crate) new: &'a [u8],
}

/// Returns what follows the first lines of two texts, if both have one and these are the same.
fn after_same<'a>(old: &'a [u8], new: &'a [u8]) -> Option<(&'a [u8], &'a [u8])>
    ensures { MatchOption result
        (same_lines (texts_in old.entry.now) (texts_in new.entry.now) ≡ 0)
        (λ rests. StepTogether old.entry.now new.entry.now rests.0.now rests.1.now) }
{
    let Some(one) = split_line(old) else {
        return None;
    };
    let Some(two) = split_line(new) else {
        return None;
    };
    if one.text == two.text {
        Some((one.rest, two.rest))
    } else {
        None
    }
}

/// Returns what is left of two texts after the lines at their fronts that are the same.
pub(crate) fn after_common<'a>(old: &'a [u8], new: &'a [u8]) -> Rests<'a>
    ensures same { result.before ≡ same_lines (texts_in old.entry.now) (texts_in new.entry.now) }
    ensures old { IsRest old.entry.now result.before result.old.now }
    ensures new { IsRest new.entry.now result.before result.new.now }
{
    let mut before = 0_usize;
    let mut old_rest = old;
    let mut new_rest = new;
    while let Some((old_after, new_after)) = after_same(old_rest, new_rest) {
        before += 1;
        old_rest = old_after;
        new_rest = new_after;
    }
    Rests {
        before,
        old: old_rest,
        new: new_rest,
    }
}
