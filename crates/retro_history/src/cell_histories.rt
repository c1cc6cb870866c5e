//! The histories of all cells that lines use.
ghost use Rattle.std.specs.Prelude.{◌≡◌, IfOk, OnOk};
ghost use Rattle.std.specs.Option.{option_copied};
ghost use Rattle.std.specs.FinMap as map;
ghost use Rattle.retro_tree.specs.declared.cell.Cell.{Cell as CellValue};
ghost use Rattle.retro_tree.specs.declared.cell.Cell.TheVariants as StateCell;
ghost use Rattle.retro_tree.specs.ValueRef.{ref_value};
ghost use Rattle.retro_history.specs.inner.CellHistory.{AllRise, history_in, history_noted};
ghost use Rattle.retro_history.specs.inner.CellHistory.{with_use};
ghost use Rattle.retro_history.specs.inner.TrackMarks.{histories_from, mark_of_value, mark_tracks};

use crate::boxed_history::BoxedHistory;
use crate::cell_history::CellHistory;
use crate::line_cells::LineCells;
use crate::line_use::LineUse;
use retro_tree::{Cell, Cells, NoMem, Node, Notes, Overlay, Path, State, Value, ValueRef};
use std::alloc::Global;
use std::collections::BTreeMap;
use std::collections::btree_map::Range;
use std::marker::Model;

/// The history of each cell that a line uses. One look-up finds all that is known of a cell.
#[derive(Drop)]
pub(crate) struct CellHistories<'a> {
    histories: BTreeMap<Cell, BoxedHistory<'a>>,
}

impl<'a> Model for CellHistories<'a> {
    ghost use Rattle.std.specs.FinMap as map;
    ghost use Rattle.retro_tree.specs.CellOrder.{cell_cmp, coded_cell};
    ghost use Rattle.retro_history.specs.inner.CellHistoryCode.{coded_history};
    ghost use Rattle.retro_history.specs.declared.cell_history.CellHistory.{CellHistory};

    ghost Value = { map.FinMap cell_cmp CellHistory };

    ghost coded = { map.code coded_cell coded_history };

    ghost view = { λ a. map.from_entries a.histories.entries };
}

impl<'a> CellHistories<'a> {
    /// Returns no histories. Takes no memory.
    pub(crate) fn new(alloc: Global) -> CellHistories<'a>
        ensures { result ≡ map.empty }
    {
        CellHistories {
            histories: BTreeMap::new(alloc),
        }
    }

    /// Returns the history of a cell, or `None` if no line uses the cell.
    pub(crate) fn get(&self, cell: &Cell) -> Option<&CellHistory<'a>>
        ensures { option_copied result ≡ map.get self.now cell.now }
    {
        match self.histories.get(cell) {
            Some(history) => Some(history.get()),
            None => None,
        }
    }

    /// Adds the notes of a line. `first` is the state before the first line. The line's number must
    /// be above those of the lines added before.
    pub(crate) fn add_notes(
        &mut self,
        alloc: Global,
        first: &'a State,
        number: u32,
        notes: &'a Notes,
    ) -> Result<(), NoMem>
        ensures { OnOk result ((c : CellValue) → history_in c first.now self.new
            ≡ history_noted c number notes.now (history_in c first.now self.old)) }
    {
        let cells = LineCells::of(alloc, number, notes)?;
        for (cell, used) in cells.iter() {
            self.add_use(alloc, first, cell, used)?;
        }
        Ok(())
    }

    /// Adds how a line uses a cell. `first` is the state before the first line.
    fn add_use(
        &mut self,
        alloc: Global,
        first: &'a State,
        cell: &Cell,
        used: &LineUse<'a>,
    ) -> Result<(), NoMem>
        ensures { OnOk result (self.new ≡ with_use cell.now first.now used.now self.old) }
    {
        if let Some(history) = self.histories.get_mut(cell) {
            return history.add(used);
        }
        let mut history = CellHistory::new(alloc, first.get(cell));
        history.add(used)?;
        let boxed = BoxedHistory::new(alloc, history)?;
        self.histories.insert(cell.copy()?, boxed)?;
        Ok(())
    }

    /// Returns an overlay that tells which children of a path exist before the line with the given
    /// number. It has an entry for each child whose cell has a version below that number. The entry
    /// is a directory if the child exists, as a file or as a directory, and otherwise a missing
    /// node. Seeks past the histories below a child.
    ///
    /// Combined with the first state, the overlay gives the names of the children in the recorded
    /// state.
    pub(crate) fn marks_below(
        &self,
        alloc: Global,
        path: &Path,
        number: u32,
    ) -> Result<Overlay, NoMem>
        requires { AllRise (map.entries self.now) }
        ensures { IfOk result (λ marks. marks
            ≡ mark_tracks path.now number (histories_from (StateCell.At path.now) self.now)
            map.empty) }
    {
        let mut marks = Overlay::new(alloc);
        let start = Cell::At(path.copy()?);
        let mut rest = self.from(&start);
        while let Some((cell, history)) = rest.next() {
            let Cell::At(at) = cell else {
                return Ok(marks);
            };
            if !at.starts_with(path) {
                return Ok(marks);
            }
            if at.is_child_of(path) {
                if let Some(version) = history.get().track.version_below(number) {
                    marks.insert(cell.copy()?, Value::Node(mark(version.value)))?;
                }
            } else if let Some(after) = at.after_child(alloc, path)? {
                rest = self.from(&Cell::At(after));
            }
        }
        Ok(marks)
    }

    /// Returns the histories of a cell and of the cells after it, in order.
    fn from(&self, cell: &Cell) -> Range<'_, Cell, BoxedHistory<'a>>
        ensures { result ≡ histories_from cell.now self.now }
    {
        self.histories.range(cell..)
    }
}

/// Returns a directory for a node that exists, and otherwise a missing node.
fn mark(value: ValueRef<'_>) -> Node
    ensures { result ≡ mark_of_value (ref_value value.entry) }
{
    match value {
        ValueRef::Missing => Node::Missing,
        _ => Node::Dir,
    }
}
