//! What a line does in two states.
ghost use Rattle.std.specs.Prelude.{◌≡◌, OnErr, OnOk};
ghost use Rattle.retro_tree.specs.Exact.{IsExact, IsTight};
ghost use Rattle.retro_tree.specs.Notes.{after};
ghost use Rattle.retro_tree.specs.declared.state.State.{State};
ghost use Rattle.retro_difference.specs.Difference.{chosen_by, recorded_by};

use crate::advancing::{advance, advance_both};
use retro_tree::{Cells, NoMem, Notes, Overlay};
use std::alloc::Global;

/// A line of a recording, and what it does in the recorded and in the repaired state.
#[derive(Clone, Copy)]
pub struct LineRun<'a, 'b> {
    /// The number of the line.
    pub number: u32,
    /// Its notes in the recorded state.
    pub recorded: &'a Notes,
    /// Its notes in the repaired state, or `None` if they are the same.
    pub chosen: Option<&'b Notes>,
}

impl LineRun<'_, '_> {
    /// Advances an exact overlay over the line. `cells` has the values of the recorded state before
    /// it.
    pub(crate) fn advance<C: Cells>(
        &self,
        alloc: Global,
        overlay: &mut Overlay,
        cells: &C,
    ) -> Result<(), NoMem>
        requires { IsTight overlay.old (C.state cells.now) }
        ensures exact { OnOk result ((t : State) → IsExact overlay.old (C.state cells.now) t
            → IsExact overlay.new (after (recorded_by self.now) (C.state cells.now))
            (after (chosen_by self.now) t)) }
        ensures err { OnErr result (overlay.new ≡ overlay.old) }
    {
        match self.chosen {
            None => advance_both(alloc, overlay, cells, self.recorded),
            Some(chosen) => advance(alloc, overlay, cells, self.recorded, chosen),
        }
    }
}
