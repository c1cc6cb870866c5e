//! Changes of the cells of a query, compared.
ghost use Rattle.std.specs.Prelude.{◌≡◌, ◌↔◌, ◌∷◌, [], IsTrue, MatchOption};
ghost use Rattle.std.specs.Option.{option_copied};
ghost use Rattle.casebook_cause.specs.Cause.{changes_for, notes_of};

use retro_keep::Noted;
use retro_tree::{Ask, Change, Note};

/// Returns the notes of a line, and none if there is no line.
pub(crate) fn notes_of(noted: Option<&Noted>) -> &[Note]
    ensures { result.now ≡ notes_of (option_copied noted.entry) }
{
    match noted {
        Some(noted) => noted.notes.as_slice(),
        None => &[],
    }
}

/// Returns whether two traces change the cells of a query alike: the same changes in the same
/// order.
pub(crate) fn changes_alike(ask: &Ask, one: &[Note], two: &[Note]) -> bool
    ensures { IsTrue result ↔ (changes_for ask.now one.now ≡ changes_for ask.now two.now) }
{
    let mut rest = two;
    for note in one {
        if let Some(change) = change_for(ask, note) {
            match split_change_for(ask, rest) {
                Some((other, more)) if change.is_same(other) => rest = more,
                _ => return false,
            }
        }
    }
    split_change_for(ask, rest).is_none()
}

/// Returns the first change of a cell of a query and the notes after it, or `None` if there is no
/// such change.
fn split_change_for<'a>(ask: &Ask, notes: &'a [Note]) -> Option<(&'a Change, &'a [Note])>
    ensures { MatchOption result (changes_for ask.now notes.now ≡ []) (λ found.
        changes_for ask.now notes.now ≡ found.0.now ∷ changes_for ask.now found.1.now) }
{
    let mut rest = notes;
    while let [first, more @ ..] = rest {
        if let Some(change) = change_for(ask, first) {
            return Some((change, more));
        }
        rest = more;
    }
    None
}

/// Returns the change that a note is, if it changes a cell of a query.
fn change_for<'a>(ask: &Ask, note: &'a Note) -> Option<&'a Change>
    ensures { MatchOption result (changes_for ask.now (note.now ∷ []) ≡ [])
        (λ change. changes_for ask.now (note.now ∷ []) ≡ change.now ∷ []) }
{
    match note {
        Note::Made(change) if ask.depends_on(change.cell()) => Some(change),
        _ => None,
    }
}
