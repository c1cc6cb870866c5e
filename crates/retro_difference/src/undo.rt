//! How the writes of an overlay's entries are undone.
ghost use Rattle.std.specs.Prelude.{◌≡◌};
ghost use Rattle.std.specs.FinMap as map;
ghost use Rattle.retro_difference.specs.inner.Undo.{undone, undone_cell, cut, cut_at};

use retro_tree::{Cell, Node, Overlay, OverlayEntry, Value};

/// What it takes to undo one write of an overlay's entry: the cell, and what was there before.
#[derive(Drop)]
pub(crate) enum Undo {
    /// The cell had no entry.
    Absent(Cell),
    /// The previous entry of a cell.
    Entry(Cell, OverlayEntry),
    /// The previous length of the file that is a cell's entry.
    Length(Cell, usize),
}

impl Undo {
    /// Returns the cell whose entry was written.
    pub(crate) fn cell(&self) -> &Cell
        ensures { result.now ≡ undone_cell self.now }
    {
        match self {
            Undo::Absent(cell) | Undo::Entry(cell, _) | Undo::Length(cell, _) => cell,
        }
    }

    /// Undoes the write in an overlay. Takes no memory.
    pub(crate) fn apply(self, overlay: &mut Overlay)
        ensures { overlay.new ≡ undone self overlay.old }
    {
        match self {
            Undo::Absent(cell) => overlay.remove(&cell),
            Undo::Entry(cell, entry) => {
                let _ = overlay.replace(&cell, entry);
            }
            Undo::Length(cell, length) => cut_at(overlay, &cell, length),
        }
    }
}

/// Returns an entry, cut to `length` bytes if it is a file.
fn cut(entry: OverlayEntry, length: usize) -> OverlayEntry
    ensures { result ≡ cut length entry }
{
    match entry {
        OverlayEntry::Value(Value::Node(Node::File(bytes))) => {
            let mut bytes = bytes;
            bytes.truncate(length);
            OverlayEntry::Value(Value::Node(Node::File(bytes)))
        }
        other => other,
    }
}

/// Cuts the file that is a cell's entry to `length` bytes. The entry is taken out, cut and put
/// back, which takes no memory.
#[tactic(auto, using(crate::proofs::Undoing::cutting))]
fn cut_at(overlay: &mut Overlay, cell: &Cell, length: usize)
    ensures { overlay.new ≡ cut_at cell.now length (map.get overlay.old cell.now) overlay.old }
{
    let placeholder = OverlayEntry::Value(Value::Node(Node::Missing));
    if let Some(entry) = overlay.replace(cell, placeholder) {
        let _ = overlay.replace(cell, cut(entry, length));
    }
}
