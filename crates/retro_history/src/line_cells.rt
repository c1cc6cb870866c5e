//! The cells that a line uses.
ghost use Rattle.std.specs.Prelude.{◌≡◌, IfOk, OnOk};
ghost use Rattle.std.specs.FinMap as map;
ghost use Rattle.retro_history.specs.inner.LineUse.{cells_noted, queried_cell, with_change};
ghost use Rattle.retro_history.specs.inner.LineUse.{with_query, with_read};

use crate::line_use::LineUse;
use retro_tree::{Ask, Cell, Change, NoMem, Note, Notes, Path};
use std::alloc::Global;
use std::collections::BTreeMap;
use std::collections::btree_map::Iter;
use std::marker::Model;

/// The cells that a line uses, each with how the line uses it.
///
/// The notes of a line often name a cell many times. They are gathered here first, so each cell
/// takes one look-up among the cells of all lines.
#[derive(Drop)]
pub(crate) struct LineCells<'a> {
    uses: BTreeMap<Cell, LineUse<'a>>,
}

impl<'a> Model for LineCells<'a> {
    ghost use Rattle.std.specs.FinMap as map;
    ghost use Rattle.retro_tree.specs.CellOrder.{cell_cmp, coded_cell};
    ghost use Rattle.retro_history.specs.inner.LineUse.{UseValue, coded_use};

    ghost Value = { map.FinMap cell_cmp UseValue };

    ghost coded = { map.code coded_cell coded_use };

    ghost view = { λ a. map.from_entries a.uses.entries };
}

impl<'a> LineCells<'a> {
    /// Returns the cells that the notes of a line use.
    pub(crate) fn of(alloc: Global, number: u32, notes: &'a Notes) -> Result<LineCells<'a>, NoMem>
        ensures { IfOk result (λ cells. cells ≡ cells_noted number notes.now map.empty) }
    {
        let mut cells = LineCells {
            uses: BTreeMap::new(alloc),
        };
        for note in notes.as_slice() {
            match note {
                Note::Asked(ask, _) => cells.add_query(alloc, number, ask)?,
                Note::Made(change) => cells.add_change(alloc, number, change)?,
            }
        }
        Ok(cells)
    }

    /// Returns the cells in order, each with its use.
    pub(crate) fn iter(&self) -> Iter<'_, Cell, LineUse<'a>>
        ensures { result ≡ map.entries self.now }
    {
        self.uses.iter()
    }

    /// Adds the reads of a query. The children that a listing reads aren't added.
    fn add_query(&mut self, alloc: Global, number: u32, ask: &Ask) -> Result<(), NoMem>
        ensures { OnOk result (self.new ≡ with_query number ask.now self.old) }
    {
        let cell = queried_cell(alloc, ask)?;
        self.add_read(alloc, number, cell)?;
        match ask {
            Ask::CanWrite(path, _) => self.add_read(alloc, number, Cell::At(path.parent(alloc)?)),
            _ => Ok(()),
        }
    }

    /// Adds a read of a cell.
    fn add_read(&mut self, alloc: Global, number: u32, cell: Cell) -> Result<(), NoMem>
        ensures { OnOk result (self.new ≡ with_read number cell self.old) }
    {
        if let Some(used) = self.uses.get_mut(&cell) {
            used.add_read();
            return Ok(());
        }
        let mut used = LineUse::new(alloc, number);
        used.add_read();
        self.uses.insert(cell, used)?;
        Ok(())
    }

    /// Adds a change.
    fn add_change(&mut self, alloc: Global, number: u32, change: &'a Change) -> Result<(), NoMem>
        ensures { OnOk result (self.new ≡ with_change number change.now self.old) }
    {
        let cell = change.cell().to_cell()?;
        if let Some(used) = self.uses.get_mut(&cell) {
            return used.add_change(change);
        }
        let mut used = LineUse::new(alloc, number);
        used.add_change(change)?;
        self.uses.insert(cell, used)?;
        Ok(())
    }
}

/// Returns the cell that a query is about. A query about a path is about the path's cell, also if
/// its answer depends on other cells too. A query for a user is about the cell of the password
/// file.
fn queried_cell(alloc: Global, ask: &Ask) -> Result<Cell, NoMem>
    ensures { IfOk result (λ cell. cell ≡ queried_cell ask.now) }
{
    match ask {
        Ask::Kind(path) | Ask::Bytes(path) | Ask::Names(path) | Ask::CanWrite(path, _) => {
            Ok(Cell::At(path.copy()?))
        }
        Ask::User(_) => Ok(Cell::At(Path::passwd(alloc)?)),
        Ask::VarOf(sid, name) => Ok(Cell::Var(*sid, name.copy()?)),
        Ask::CwdOf(sid) => Ok(Cell::Cwd(*sid)),
        Ask::StatusOf(sid) => Ok(Cell::Status(*sid)),
    }
}
