//! Writes of an overlay's entries, which can be undone.
ghost use Rattle.std.specs.Prelude.{◌≡◌, IfOk, OnOk, OnErr, reverse};
ghost use Rattle.std.specs.FinMap as map;
ghost use Rattle.retro_tree.specs.Overlay.{grown_at};
ghost use Rattle.retro_tree.specs.declared.overlay_entry.OverlayEntry.TheVariants as OverlayEntry;
ghost use Rattle.retro_difference.specs.inner.Write.{wrote, wrote_all, without};
ghost use Rattle.retro_difference.specs.inner.Undo.{undone, undone_all, undone_cell, Undoes};

use crate::undo::Undo;
use crate::write::Write;
use crate::write_map::WriteMap;
use retro_tree::{Bytes, Cell, NoMem, Node, Overlay, OverlayEntry, Value};

/// Returns how to undo that a cell's entry grows by `bytes`.
#[tactic(auto, using(crate::proofs::Undoing::growing))]
fn undo_of_growth(overlay: &Overlay, cell: Cell, bytes: &Bytes) -> Result<Undo, NoMem>
    ensures cell { IfOk result (λ undo. undone_cell undo ≡ cell) }
    ensures undo { IfOk result (λ undo. undone undo
        (grown_at cell bytes.now (map.get overlay.now cell) overlay.now) ≡ overlay.now) }
{
    match overlay.get(&cell) {
        None => Ok(Undo::Absent(cell)),
        Some(OverlayEntry::Value(Value::Node(Node::File(old)))) => {
            let length = old.len();
            Ok(Undo::Length(cell, length))
        }
        Some(entry) => {
            let copy = entry.copy()?;
            Ok(Undo::Entry(cell, copy))
        }
    }
}

/// Sets a cell's entry to a value, and returns how to undo that.
#[tactic(auto, using(crate::proofs::Undoing::setting))]
fn set(overlay: &mut Overlay, cell: Cell, value: Value) -> Result<Undo, NoMem>
    ensures ok { OnOk result
        (overlay.new ≡ map.insert overlay.old cell (OverlayEntry.Value value)) }
    ensures undo { IfOk result (λ undo. undone undo overlay.new ≡ overlay.old) }
    ensures err { OnErr result (overlay.new ≡ overlay.old) }
{
    if overlay.get(&cell).is_none() {
        let key = cell.copy()?;
        overlay.insert(cell, value)?;
        return Ok(Undo::Absent(key));
    }
    match overlay.replace(&cell, OverlayEntry::Value(value)) {
        Some(previous) => Ok(Undo::Entry(cell, previous)),
        None => unreachable!(),
    }
}

/// Makes a write. Returns how to undo it, or `None` if it changes nothing.
fn write_one(overlay: &mut Overlay, cell: Cell, write: Write) -> Result<Option<Undo>, NoMem>
    ensures ok { OnOk result (overlay.new ≡ wrote cell write overlay.old) }
    ensures undo { IfOk result (λ undo. Undoes undo overlay.new overlay.old) }
    ensures err { OnErr result (overlay.new ≡ overlay.old) }
{
    match write {
        Write::Keep => Ok(None),
        Write::Set(value) => Ok(Some(set(overlay, cell, value)?)),
        Write::Grow(bytes) => {
            let undo = undo_of_growth(overlay, cell, &bytes)?;
            overlay.grow(undo.cell(), &bytes)?;
            Ok(Some(undo))
        }
    }
}

/// Makes a write, and appends how to undo it.
#[tactic(auto, using(crate::proofs::Undoing::undoing))]
fn write_next(
    overlay: &mut Overlay,
    undos: &mut Vec<Undo>,
    cell: Cell,
    write: Write,
) -> Result<(), NoMem>
    ensures ok { OnOk result (overlay.new ≡ wrote cell write overlay.old) }
    ensures undone { undone_all (reverse undos.new.items) overlay.new
        ≡ undone_all (reverse undos.old.items) overlay.old }
{
    let Some(undo) = write_one(overlay, cell, write)? else {
        return Ok(());
    };
    if let Err(refused) = undos.push(undo) {
        refused.value.apply(overlay);
        return Err(NoMem);
    }
    Ok(())
}

/// Makes writes, and appends how to undo each of them. If allocation fails, some of the writes may
/// have been made.
pub(crate) fn write_all(
    overlay: &mut Overlay,
    undos: &mut Vec<Undo>,
    writes: WriteMap,
) -> Result<(), NoMem>
    ensures ok { OnOk result (overlay.new ≡ wrote_all (map.entries writes) overlay.old) }
    ensures undone { undone_all (reverse undos.new.items) overlay.new
        ≡ undone_all (reverse undos.old.items) overlay.old }
{
    for (cell, write) in writes.into_entries() {
        write_next(overlay, undos, cell, write)?;
    }
    Ok(())
}

/// Undoes writes, from the last to the first. Takes no memory.
pub(crate) fn undo_all(overlay: &mut Overlay, undos: Vec<Undo>)
    ensures { overlay.new ≡ undone_all (reverse undos.items) overlay.old }
{
    let mut undos = undos;
    while let Some(undo) = undos.pop() {
        undo.apply(overlay);
    }
}

/// Removes the entries of some cells. Takes no memory.
pub(crate) fn remove_all(overlay: &mut Overlay, cells: &[Cell])
    ensures { overlay.new ≡ without cells.now overlay.old }
{
    for cell in cells {
        overlay.remove(cell);
    }
}
