//! The shelf of a line: the files from which its stand-in copies.
ghost use Rattle.std.specs.Prelude.{◌≡◌, IfOk};
ghost use Rattle.std.specs.Option.{option_copied};
ghost use Rattle.casebook_stand_in.specs.Shelf.{part_of, shelf_of};

use crate::NoMem;
use crate::effect::Effect;
use retro_tree::{Bytes, Cell, Node, OverlayEntry, State, Value};
use std::alloc::Global;

/// Returns what a file is given, by its bytes before and after: only the new bytes if it grew,
/// nothing if it is unchanged, and otherwise all bytes.
pub(crate) fn part_of<'a>(old: Option<&Bytes>, new: &'a Bytes) -> Option<&'a [u8]>
    ensures { option_copied result ≡ part_of (option_copied old.entry) new.now }
{
    let new = new.as_slice();
    let Some(old) = old else {
        return Some(new);
    };
    if !new.starts_with(old.as_slice()) {
        return Some(new);
    }
    if new.len() == old.len() {
        return None;
    }
    Some(&new[old.len()..])
}

/// Returns the contents of the files on the shelf of a line, by the state before it. The first
/// belongs at `/.casebook/LINE/1`, the next at `/.casebook/LINE/2`, and so on.
///
/// There is one for each new or changed file. Of a file that grew it has the new bytes alone.
pub fn shelf_of(alloc: Global, state: &State, effect: &Effect) -> Result<Vec<Bytes>, NoMem>
    ensures { IfOk result (λ shelf. shelf.items ≡ shelf_of effect.now state.now) }
{
    let mut shelf = Vec::new(alloc);
    for (cell, entry) in effect.cells().iter() {
        if let (Cell::At(path), OverlayEntry::Value(Value::Node(Node::File(bytes)))) = (
            cell, entry,
        ) {
            if let Some(part) = part_of(state.file(path), bytes) {
                shelf.push(Bytes::of(Vec::from_slice(alloc, part)?))?;
            }
        }
    }
    Ok(shelf)
}
