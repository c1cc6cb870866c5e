//! Changes of a state.
ghost use Rattle.std.specs.Prelude.{◌≡◌, ◌↔◌, IfOk, IsTrue};
ghost use Rattle.retro_tree.specs.Change.{cell_of, has_its_session, grows_dir, may_make};
ghost use Rattle.retro_tree.specs.CellRef.{ref_cell};

use crate::cell_ref::CellRef;
use crate::node::Node;
use crate::session::{VALUE_LIMIT, status_fits};
use crate::state::State;
use retro_path::{Bytes, NoMem, Path, Text, VarName};

/// A write to one cell of a state. `State::apply` makes it.
///
/// A session that doesn't exist is created: at the root, without variables, with status 0.
#[derive(Drop, Clone, PartialEq, Eq)]
pub enum Change {
    /// Puts a node at a path. `Missing` removes what the path holds.
    Put(Path, Node),
    /// Appends bytes to the file at a path. A missing file is created, and a directory stays
    /// unchanged.
    Grow(Path, Bytes),
    /// Sets a variable of a session.
    SetVar(u32, VarName, Text),
    /// Sets the directory of a session.
    SetCwd(u32, Path),
    /// Sets the status of a session.
    SetStatus(u32, u8),
}

impl Change {
    /// Returns a copy.
    pub fn copy(&self) -> Result<Change, NoMem>
        ensures { IfOk result (λ copy. copy ≡ self.now) }
    {
        self.clone()
    }

    /// Returns whether this is the same change as another.
    #[tactic(auto, using(crate::proofs::Sames::sames))]
    pub fn is_same(&self, other: &Change) -> bool
        ensures { IsTrue result ↔ (self.now ≡ other.now) }
    {
        match (self, other) {
            (Change::Put(path, x), Change::Put(other_path, y)) => {
                path == other_path && x.is_same(y)
            }
            (Change::Grow(path, x), Change::Grow(other_path, y)) => path == other_path && x == y,
            (Change::SetVar(sid, name, x), Change::SetVar(other_sid, other_name, y)) => {
                *sid == *other_sid && name == other_name && x == y
            }
            (Change::SetCwd(sid, x), Change::SetCwd(other_sid, y)) => *sid == *other_sid && x == y,
            (Change::SetStatus(sid, x), Change::SetStatus(other_sid, y)) => {
                *sid == *other_sid && *x == *y
            }
            _ => false,
        }
    }

    /// Returns the cell that the change writes.
    pub fn cell(&self) -> CellRef<'_>
        ensures { ref_cell result ≡ cell_of self.now }
    {
        match self {
            Change::Put(path, _) | Change::Grow(path, _) => CellRef::At(path),
            Change::SetVar(sid, name, _) => CellRef::Var(*sid, name),
            Change::SetCwd(sid, _) => CellRef::Cwd(*sid),
            Change::SetStatus(sid, _) => CellRef::Status(*sid),
        }
    }

    /// Returns whether the session of the change exists. Returns true for a change of the tree.
    pub(crate) fn has_its_session(&self, state: &State) -> bool
        ensures { result ≡ has_its_session self.now state.now }
    {
        match self {
            Change::Put(..) | Change::Grow(..) => true,
            Change::SetVar(sid, ..) | Change::SetCwd(sid, _) | Change::SetStatus(sid, _) => {
                state.has_session(*sid)
            }
        }
    }

    /// Returns whether the change grows a directory.
    pub(crate) fn grows_dir(&self, state: &State) -> bool
        ensures { result ≡ grows_dir self.now state.now }
    {
        match self {
            Change::Grow(path, _) => state.tree().is_dir(path),
            _ => false,
        }
    }

    /// Returns whether the change keeps a lawful state lawful. Looks only at the cell of the change
    /// and the cells around it.
    #[tactic(auto, unfolding(crate::specs::Change::may_make))]
    pub(crate) fn keeps_lawful(&self, state: &State) -> Result<bool, NoMem>
        ensures { IfOk result (λ keeps. keeps ≡ may_make self.now state.now) }
    {
        match self {
            Change::Put(path, node) => state.tree().may_put(path, node),
            Change::Grow(path, bytes) => state.tree().may_grow(path, bytes),
            Change::SetVar(_, _, text) => Ok(text.bytes().len() <= VALUE_LIMIT),
            Change::SetCwd(..) => Ok(true),
            Change::SetStatus(_, status) => Ok(status_fits(*status)),
        }
    }
}
