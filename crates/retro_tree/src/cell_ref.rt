//! Borrowed cells.
ghost use Rattle.std.specs.Prelude.{◌≡◌, IfOk};
ghost use Rattle.std.specs.Option.{option_copied};
ghost use Rattle.retro_tree.specs.CellRef.{path_in, ref_cell};

use crate::cell::Cell;
use retro_path::{NoMem, Path, VarName};

/// A borrowed cell: what a [`Cell`] has, without a copy.
#[derive(Clone, Copy)]
pub enum CellRef<'a> {
    /// The node at a path.
    At(&'a Path),
    /// The directory of a session.
    Cwd(u32),
    /// A variable of a session.
    Var(u32, &'a VarName),
    /// The status of a session.
    Status(u32),
}

impl<'a> CellRef<'a> {
    /// Borrows a cell.
    pub fn of(cell: &'a Cell) -> CellRef<'a>
        ensures { ref_cell result ≡ cell.now }
    {
        match cell {
            Cell::At(path) => CellRef::At(path),
            Cell::Cwd(sid) => CellRef::Cwd(*sid),
            Cell::Var(sid, name) => CellRef::Var(*sid, name),
            Cell::Status(sid) => CellRef::Status(*sid),
        }
    }

    /// Returns the cell as one that owns what it holds.
    pub fn to_cell(self) -> Result<Cell, NoMem>
        ensures { IfOk result (λ cell. cell ≡ ref_cell self.entry) }
    {
        match self {
            CellRef::At(path) => Ok(Cell::At(path.copy()?)),
            CellRef::Cwd(sid) => Ok(Cell::Cwd(sid)),
            CellRef::Var(sid, name) => Ok(Cell::Var(sid, name.copy()?)),
            CellRef::Status(sid) => Ok(Cell::Status(sid)),
        }
    }

    /// Returns the path whose node the cell is, or `None` if it is a session's cell.
    pub fn path(self) -> Option<&'a Path>
        ensures { option_copied result ≡ path_in (ref_cell self.entry) }
    {
        match self {
            CellRef::At(path) => Some(path),
            CellRef::Cwd(_) | CellRef::Var(_, _) | CellRef::Status(_) => None,
        }
    }
}
