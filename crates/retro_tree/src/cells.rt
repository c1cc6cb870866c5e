//! Sources of the values of cells.
ghost use Rattle.std.specs.Prelude.{◌≡◌};
ghost use Rattle.retro_tree.specs.Cell.{value};
ghost use Rattle.retro_tree.specs.declared.state.State.{State as StateValue};
ghost use Rattle.retro_tree.specs.ValueRef.{ref_value};

use crate::cell::Cell;
use crate::entry::Entry;
use crate::state::State;
use crate::value_ref::ValueRef;

/// A source of values: it lends the value of each cell of one state. A `State` is a source of its
/// own values.
pub trait Cells {
    /// The state.
    ghost state: { Self → StateValue };

    /// Borrows the value of a cell. Takes no memory.
    fn get(&self, cell: &Cell) -> ValueRef<'_>
        ensures { ref_value result ≡ value cell.now (state self.now) };
}

impl Cells for State {
    ghost state = { λ s. s };

    #[tactic(auto, using(crate::proofs::Lending::lending))]
    fn get(&self, cell: &Cell) -> ValueRef<'_> {
        match cell {
            Cell::At(path) => match self.tree().get(path) {
                None => ValueRef::Missing,
                Some(Entry::Dir) => ValueRef::Dir,
                Some(Entry::File(bytes)) => ValueRef::File(bytes.as_slice()),
            },
            Cell::Cwd(sid) => match self.sessions().get(*sid) {
                None => ValueRef::Root,
                Some(session) => ValueRef::Cwd(&session.cwd),
            },
            Cell::Var(sid, name) => match self.sessions().get(*sid) {
                None => ValueRef::Unset,
                Some(session) => match session.vars.get(name) {
                    None => ValueRef::Unset,
                    Some(text) => ValueRef::Text(text),
                },
            },
            Cell::Status(sid) => match self.sessions().get(*sid) {
                None => ValueRef::Status(0),
                Some(session) => ValueRef::Status(session.status),
            },
        }
    }
}
