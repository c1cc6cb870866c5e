//! Sights after notes.
ghost use Rattle.std.specs.Prelude.{◌≡◌, IfOk, OnOk};
ghost use Rattle.casebook_spool.specs.After.{after_items, after_notes, with_looked, with_note};

use crate::NoMem;
use crate::item::Item;
use crate::note::{Looked, Note};
use casebook_watch::{Sight, Sights};
use std::alloc::Global;

/// Makes a reading of the recorder itself, if the path has a sight.
fn make_looked(sights: &mut Sights, looked: &Looked) -> Result<(), NoMem>
    ensures { OnOk result (sights.new ≡ with_looked sights.old looked.now) }
{
    let Some(sight) = sights.get(&looked.path) else {
        return Ok(());
    };
    let sight = Sight {
        read: looked.read,
        ..*sight
    };
    sights.insert(looked.path.copy()?, sight)
}

/// Makes a note.
fn make_note(sights: &mut Sights, note: &Note) -> Result<(), NoMem>
    ensures { OnOk result (sights.new ≡ with_note sights.old note.now) }
{
    match note {
        Note::Sight(change) => sights.make(change),
        Note::Holds(_) => Ok(()),
        Note::Looked(looked) => make_looked(sights, looked),
    }
}

/// Returns the sights after some notes, made one after the other.
pub fn after_notes(sights: Sights, notes: &[Note]) -> Result<Sights, NoMem>
    ensures { IfOk result (λ after. after ≡ after_notes sights notes.now) }
{
    let mut sights = sights;
    for note in notes {
        make_note(&mut sights, note)?;
    }
    Ok(sights)
}

/// Returns the sights after some items, made one after the other.
pub fn after_items(sights: Sights, items: &[Item]) -> Result<Sights, NoMem>
    ensures { IfOk result (λ after. after ≡ after_items sights items.now) }
{
    let mut sights = sights;
    for item in items {
        match item {
            Item::Note(note) => make_note(&mut sights, note)?,
            Item::Record(_) => {}
        }
    }
    Ok(sights)
}
