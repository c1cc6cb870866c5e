//! The cells of a state.
ghost use Rattle.std.specs.Prelude.{◌≡◌, ◌↔◌, IfOk, IsTrue};

use retro_path::{NoMem, Path, VarName};
use std::cmp::Ordering;

/// A place of a state that holds one value. A state is the values of its cells and the set of its
/// sessions. Cells are ordered by kind, as listed here, and then by their fields.
#[derive(Drop, Clone, PartialEq, Eq, PartialOrd, Ord)]
pub enum Cell {
    /// The node at a path.
    At(Path),
    /// The directory of a session.
    Cwd(u32),
    /// A variable of a session.
    Var(u32, VarName),
    /// The status of a session.
    Status(u32),
}

impl Cell {
    /// Returns a copy.
    pub fn copy(&self) -> Result<Cell, NoMem>
        ensures { IfOk result (λ copy. copy ≡ self.now) }
    {
        self.clone()
    }

    /// Returns whether this is the same cell as another.
    #[tactic(auto, using(crate::proofs::Sames::sames))]
    pub fn is_same(&self, other: &Cell) -> bool
        ensures { IsTrue result ↔ (self.now ≡ other.now) }
    {
        match (self, other) {
            (Cell::At(x), Cell::At(y)) => x == y,
            (Cell::Cwd(x), Cell::Cwd(y)) | (Cell::Status(x), Cell::Status(y)) => *x == *y,
            (Cell::Var(sid, x), Cell::Var(other_sid, y)) => *sid == *other_sid && x == y,
            _ => false,
        }
    }
}
