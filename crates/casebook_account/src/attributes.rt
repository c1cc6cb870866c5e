//! Modes and owners that were seen.
ghost use Rattle.std.specs.Prelude.{◌≡◌, ◌++◌, IfOk, OnOk, flat_map, map};
ghost use Rattle.std.specs.Option.{option_copied};
ghost use Rattle.casebook_typed.specs.Values.{change_value, line_value};
ghost use Rattle.casebook_account.specs.Attributes.{attributes_seen, change_seen, note_seen};
ghost use Rattle.casebook_account.specs.Attributes.{sight_seen};

use crate::NoMem;
use crate::machine_line::MachineLine;
use casebook_folder::Attributes;
use casebook_spool::{Listing, Note};
use casebook_typed::{PathChange, TypedLine};
use casebook_watch::{Kind, Sight};
use retro_path::Path;
use std::alloc::Global;

/// The mode and owner that a path was seen to have.
#[derive(Drop)]
pub struct SeenAttributes {
    /// The number of the line after which they were seen, or 0 before all lines.
    pub line: u32,
    /// The path.
    pub path: Path,
    /// What was there.
    pub kind: Kind,
    /// Its mode and owner.
    pub attributes: Attributes,
}

/// Appends what is seen of a path after the line with a number, unless nothing is there.
fn push_sight(
    seen: &mut Vec<SeenAttributes>,
    line: u32,
    path: &Path,
    sight: Option<&Sight>,
) -> Result<(), NoMem>
    ensures { OnOk result (seen.new.items
        ≡ seen.old.items ++ sight_seen line path.now (option_copied sight.entry)) }
{
    if let Some(sight) = sight {
        seen.push(SeenAttributes {
            line,
            path: path.copy()?,
            kind: sight.kind,
            attributes: sight.attributes,
        })?;
    }
    Ok(())
}

/// Appends what a note of the first look says of a path.
fn push_note(seen: &mut Vec<SeenAttributes>, note: &Note) -> Result<(), NoMem>
    ensures { OnOk result (seen.new.items ≡ seen.old.items ++ note_seen note.now) }
{
    match note {
        Note::Sight(change) => push_sight(seen, 0, &change.path, change.sight.as_ref()),
        Note::Holds(_) | Note::Looked(_) => Ok(()),
    }
}

/// Appends what the first look saw.
fn push_first(seen: &mut Vec<SeenAttributes>, notes: &[Note]) -> Result<(), NoMem>
    ensures { OnOk result (seen.new.items ≡ seen.old.items ++ flat_map note_seen notes.now) }
{
    for note in notes {
        push_note(seen, note)?;
    }
    Ok(())
}

/// Appends what the line with a number left.
fn push_line(
    seen: &mut Vec<SeenAttributes>,
    line: u32,
    changes: &[PathChange<'_>],
) -> Result<(), NoMem>
    ensures { OnOk result (seen.new.items
        ≡ seen.old.items ++ flat_map (change_seen line) (map change_value changes.now)) }
{
    for change in changes {
        push_sight(seen, line, &change.path, change.sight.as_ref())?;
    }
    Ok(())
}

/// Returns the modes and owners that paths were seen to have, in order: those of the first look, and
/// those that each line left.
pub(crate) fn attributes_seen(
    alloc: Global,
    first: &Listing,
    machine: &[MachineLine],
    lines: &[TypedLine<'_>],
) -> Result<Vec<SeenAttributes>, NoMem>
    ensures { IfOk result (λ seen. seen.items
        ≡ attributes_seen first.now.said machine.now (map line_value lines.now)) }
{
    let mut seen = Vec::new(alloc);
    push_first(&mut seen, first.notes())?;
    for (line, typed) in machine.iter().zip(lines) {
        push_line(&mut seen, line.number, typed.seen.changes.as_slice())?;
    }
    Ok(seen)
}
