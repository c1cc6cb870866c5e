//! The index of a recording's lines.
ghost use Rattle.std.specs.Prelude.{◌≡◌, List, IfOk, IsTrue, OnOk};
ghost use Rattle.std.specs.FinMap as map;
ghost use Rattle.retro_tree.specs.declared.cell.Cell.{Cell as CellValue};
ghost use Rattle.retro_history.specs.inner.CellHistory.{history_in, history_noted, uses_at};
ghost use Rattle.retro_history.specs.Index.{IsNextMeeting, Line};
ghost use Rattle.retro_history.specs.Index.{listed_at, next_use, read_at, written_at};
ghost use Rattle.retro_history.specs.inner.Numbers.{rise};
ghost use Rattle.retro_history.specs.inner.IndexSteps.{Indexes, listed_noted, no_lines};
ghost use Rattle.retro_history.specs.inner.IndexSteps.{parent_listings};

use crate::cell_histories::CellHistories;
use crate::path_lines::PathLines;
use crate::rising::{earliest, first_above, merge};
use retro_tree::{Cell, NoMem, Notes, Overlay, Path, State};
use std::alloc::Global;
use std::collections::BTreeSet;

/// For each cell its versions, the lines that write it and the lines that read it, and for each
/// directory the lines that list it. Look-ups don't scan the lines.
///
/// A line writes a cell if its notes have a change of it. It reads a cell if the answer to one of
/// its queries can depend on the cell. So a listing of a directory reads the cells of the directory
/// and of each child path, existing or not. The lines that read a child's cell by a listing are
/// found among those that list its parent.
#[derive(Drop)]
pub(crate) struct Index<'a> {
    pub(crate) cells: CellHistories<'a>,
    listed: PathLines,
}

impl<'a> Index<'a> {
    /// Returns the index of no lines. Takes no memory.
    pub(crate) fn new(alloc: Global) -> Index<'a>
        ensures { result ≡ no_lines }
    {
        Index {
            cells: CellHistories::new(alloc),
            listed: PathLines::new(alloc),
        }
    }

    /// Adds a line. `first` is the state before the first line. The line's number must be above
    /// those of the lines added before. Takes time and memory in proportion to the notes, times the
    /// logarithm of the number of cells.
    pub(crate) fn add_line(
        &mut self,
        alloc: Global,
        first: &'a State,
        number: u32,
        notes: &'a Notes,
    ) -> Result<(), NoMem>
        ensures cells { OnOk result ((c : CellValue) → history_in c first.now self.new.cells
            ≡ history_noted c number notes.now (history_in c first.now self.old.cells)) }
        ensures listed { OnOk result
            (self.new.listed ≡ listed_noted number notes.now self.old.listed) }
    {
        self.cells.add_notes(alloc, first, number, notes)?;
        self.listed.add_notes(alloc, number, notes)
    }

    /// Returns the numbers of the lines that write a cell, in rising order.
    pub(crate) fn writers(&self, alloc: Global, cell: &Cell) -> Result<Vec<u32>, NoMem>
        ensures { IfOk result (λ numbers. (lines : List Line)
            → Indexes self.now lines → numbers.items ≡ written_at cell.now lines) }
    {
        Vec::from_slice(alloc, self.written_by(cell))
    }

    /// Returns the numbers of the lines that read a cell, in rising order.
    pub(crate) fn readers(&self, alloc: Global, cell: &Cell) -> Result<Vec<u32>, NoMem>
        ensures { IfOk result (λ numbers. (lines : List Line)
            → Indexes self.now lines → numbers.items ≡ read_at cell.now lines) }
    {
        let read = self.read_directly(cell);
        let listed = self.parent_listings(alloc, cell)?;
        merge(alloc, read, listed)
    }

    /// Borrows the numbers of the lines that write a cell, in rising order. Takes no memory.
    pub(crate) fn written_by(&self, cell: &Cell) -> &[u32]
        ensures { (lines : List Line)
            → Indexes self.now lines → result.now ≡ written_at cell.now lines }
    {
        match self.cells.get(cell) {
            Some(history) => history.uses.written.as_slice(),
            None => &[],
        }
    }

    /// Borrows the numbers of the lines that query the names in a directory, in rising order. Takes
    /// no memory.
    pub(crate) fn listed_by(&self, path: &Path) -> &[u32]
        ensures { (lines : List Line)
            → Indexes self.now lines → result.now ≡ listed_at path.now lines }
    {
        self.listed.numbers(path)
    }

    /// Returns the least number above `after` of a line that reads or writes one of the cells, or
    /// `None` if there is no such line. Takes a few look-ups for each cell.
    pub(crate) fn next_meeting(
        &self,
        alloc: Global,
        cells: &BTreeSet<Cell>,
        after: u32,
    ) -> Result<Option<u32>, NoMem>
        ensures { IfOk result (λ next. (lines : List Line)
            → Indexes self.now lines → IsNextMeeting cells.now.keys after lines next) }
    {
        let mut next = None;
        for cell in cells {
            next = earliest(next, self.next_use(alloc, cell, after)?);
        }
        Ok(next)
    }

    /// Returns the least number above `after` of a line that reads or writes a cell with an entry
    /// in an overlay, or `None` if there is no such line. Takes a few look-ups for each entry.
    pub(crate) fn next_meeting_in(
        &self,
        alloc: Global,
        overlay: &Overlay,
        after: u32,
    ) -> Result<Option<u32>, NoMem>
        ensures { IfOk result (λ next. (lines : List Line)
            → Indexes self.now lines → IsNextMeeting (map.keys overlay.now) after lines next) }
    {
        let mut next = None;
        for (cell, _) in overlay.iter() {
            next = earliest(next, self.next_use(alloc, cell, after)?);
        }
        Ok(next)
    }

    /// Returns the least number above `after` of a line that reads or writes a cell, or `None` if
    /// there is no such line. Takes a few look-ups.
    pub(crate) fn next_use(
        &self,
        alloc: Global,
        cell: &Cell,
        after: u32,
    ) -> Result<Option<u32>, NoMem>
        ensures { IfOk result (λ next. (lines : List Line)
            → Indexes self.now lines → next ≡ next_use after cell.now lines) }
    {
        let listed = first_above(self.parent_listings(alloc, cell)?, after);
        match self.cells.get(cell) {
            Some(history) => Ok(earliest(history.uses.next(after), listed)),
            None => Ok(listed),
        }
    }

    /// Returns the numbers of the lines that read a cell, in rising order. A line that reads the
    /// cell of a path only by listing the path's parent isn't among them.
    fn read_directly(&self, cell: &Cell) -> &[u32]
        ensures value { result.now ≡ (uses_at self.now.cells cell.now).read }
        ensures rise { IsTrue (rise result.now) }
    {
        match self.cells.get(cell) {
            Some(history) => history.uses.read.as_slice(),
            None => &[],
        }
    }

    /// Returns the numbers of the lines that list the parent of a path, in rising order, if the
    /// cell is that of a path. For other cells returns no lines.
    fn parent_listings(&self, alloc: Global, cell: &Cell) -> Result<&[u32], NoMem>
        ensures value { IfOk result (λ numbers.
            numbers.now ≡ parent_listings cell.now self.now.listed) }
        ensures rise { IfOk result (λ numbers. IsTrue (rise numbers.now)) }
    {
        match cell {
            Cell::At(path) => Ok(self.listed.numbers(&path.parent(alloc)?)),
            Cell::Cwd(_) | Cell::Var(..) | Cell::Status(_) => Ok(&[]),
        }
    }
}
