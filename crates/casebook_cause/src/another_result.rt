//! Results of lines.
ghost use Rattle.std.specs.Prelude.{◌≡◌, ◌↔◌, ◌∷◌, [], IsTrue, MatchOption};
ghost use Rattle.casebook_cause.specs.LineResult.{HasSameResult, changes_in};

use retro_keep::Noted;
use retro_tree::{Change, Note};

/// Returns whether two runs of a line have another result: they print something else, or they make
/// other changes, or make them in another order. What they read doesn't count.
pub fn has_another_result(old: &Noted, new: &Noted) -> bool
    ensures { IsTrue result ↔ (¬ (HasSameResult old.now new.now)) }
{
    !has_same_result(old, new)
}

/// Returns whether two runs of a line print the same and make the same changes.
fn has_same_result(old: &Noted, new: &Noted) -> bool
    ensures { IsTrue result ↔ HasSameResult old.now new.now }
{
    old.output == new.output && makes_same_changes(old.notes.as_slice(), new.notes.as_slice())
}

/// Returns whether two traces make the same changes, in the same order.
pub(crate) fn makes_same_changes(old: &[Note], new: &[Note]) -> bool
    ensures { IsTrue result ↔ (changes_in old.now ≡ changes_in new.now) }
{
    let mut rest = new;
    for note in old {
        if let Note::Made(change) = note {
            match split_change(rest) {
                Some((other, more)) if change.is_same(other) => rest = more,
                _ => return false,
            }
        }
    }
    split_change(rest).is_none()
}

/// Returns the first change of notes and the notes after it, or `None` if they make no change.
fn split_change(notes: &[Note]) -> Option<(&Change, &[Note])>
    ensures { MatchOption result (changes_in notes.now ≡ []) (λ found.
        changes_in notes.now ≡ found.0.now ∷ changes_in found.1.now) }
{
    let mut rest = notes;
    while let [first, more @ ..] = rest {
        if let Note::Made(change) = first {
            return Some((change, more));
        }
        rest = more;
    }
    None
}
