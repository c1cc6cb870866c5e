//! Queries of a state.
ghost use Rattle.std.specs.Prelude.{◌≡◌, ◌↔◌, IfOk, IsTrue};
ghost use Rattle.retro_tree.specs.Ask.{supports};
ghost use Rattle.retro_tree.specs.CellRef.{ref_cell};

use crate::cell::Cell;
use crate::cell_ref::CellRef;
use retro_path::{NoMem, Path, Text, VarName};

/// A query of a state. `State::answer` answers it.
///
/// A session that doesn't exist has the root as its directory, no variables, and status 0.
#[derive(Drop, Clone, PartialEq, Eq)]
pub enum Ask {
    /// Which kind of node is at a path?
    Kind(Path),
    /// Which node is at a path?
    Bytes(Path),
    /// Which children does a directory have?
    Names(Path),
    /// Can this many more bytes be written to the file at a path?
    CanWrite(Path, u32),
    /// Which number and home directory does a login name have?
    User(Text),
    /// Which value does a variable of a session have?
    VarOf(u32, VarName),
    /// Which directory is a session in?
    CwdOf(u32),
    /// Which status does a session have?
    StatusOf(u32),
}

impl Ask {
    /// Returns a copy.
    pub fn copy(&self) -> Result<Ask, NoMem>
        ensures { IfOk result (λ copy. copy ≡ self.now) }
    {
        self.clone()
    }

    /// Returns whether this is the same query as another.
    #[tactic(auto, using(crate::proofs::Sames::sames))]
    pub fn is_same(&self, other: &Ask) -> bool
        ensures { IsTrue result ↔ (self.now ≡ other.now) }
    {
        match (self, other) {
            (Ask::Kind(x), Ask::Kind(y))
            | (Ask::Bytes(x), Ask::Bytes(y))
            | (Ask::Names(x), Ask::Names(y)) => x == y,
            (Ask::CanWrite(path, x), Ask::CanWrite(other_path, y)) => {
                path == other_path && *x == *y
            }
            (Ask::User(x), Ask::User(y)) => x == y,
            (Ask::VarOf(sid, x), Ask::VarOf(other_sid, y)) => *sid == *other_sid && x == y,
            (Ask::CwdOf(x), Ask::CwdOf(y)) | (Ask::StatusOf(x), Ask::StatusOf(y)) => *x == *y,
            _ => false,
        }
    }

    /// Returns whether the answer can depend on a cell.
    #[tactic(auto, unfolding(crate::specs::Ask::supports))]
    pub fn depends_on(&self, cell: CellRef<'_>) -> bool
        ensures { result ≡ supports self.now (ref_cell cell.entry) }
    {
        match (self, cell) {
            (Ask::Kind(path) | Ask::Bytes(path), CellRef::At(at)) => path == at,
            (Ask::Names(path), CellRef::At(at)) => path == at || at.is_child_of(path),
            (Ask::CanWrite(path, _), CellRef::At(at)) => path == at || at.is_parent_of(path),
            (Ask::User(_), CellRef::At(at)) => at.is_passwd(),
            (Ask::VarOf(asked, variable), CellRef::Var(sid, name)) => {
                *asked == sid && variable == name
            }
            (Ask::CwdOf(asked), CellRef::Cwd(sid)) => *asked == sid,
            (Ask::StatusOf(asked), CellRef::Status(sid)) => *asked == sid,
            _ => false,
        }
    }
}

/// Returns whether the answer to a query can depend on a cell. [`Ask::depends_on`] tells the same
/// of a borrowed cell.
pub fn supports(ask: &Ask, cell: &Cell) -> bool
    ensures { result ≡ supports ask.now cell.now }
{
    ask.depends_on(CellRef::of(cell))
}
