//! How an exact overlay advances over a line.
ghost use Rattle.std.specs.Prelude.{◌≡◌, OnOk, OnErr};
ghost use Rattle.retro_tree.specs.Notes.{after};
ghost use Rattle.retro_tree.specs.Exact.{IsExact, IsTight};
ghost use Rattle.retro_tree.specs.declared.state.State.{State};

use crate::planner::Planner;
use retro_tree::{Cells, NoMem, Notes, Overlay};
use std::alloc::Global;

/// Advances an exact overlay over a line, so that it is exact again after the line. In the recorded
/// state the line does what the notes `recorded` do, and in the repaired state what the notes
/// `chosen` do. `cells` has the values of the recorded state before the line.
///
/// An entry grows in place. It is removed if the states agree in its cell after the line. Only
/// cells that the notes change are read. A file is copied only when it first differs. If a file
/// only grows in both states, its two versions are compared only if their lengths don't tell
/// whether they are equal.
pub(crate) fn advance<C: Cells>(
    alloc: Global,
    overlay: &mut Overlay,
    cells: &C,
    recorded: &Notes,
    chosen: &Notes,
) -> Result<(), NoMem>
    requires { IsTight overlay.old (C.state cells.now) }
    ensures exact { OnOk result ((t : State) → IsExact overlay.old (C.state cells.now) t
        → IsExact overlay.new (after recorded.now (C.state cells.now)) (after chosen.now t)) }
    ensures err { OnErr result (overlay.new ≡ overlay.old) }
{
    let plan = Planner::new(alloc, cells, overlay).plan(recorded, chosen)?;
    plan.carry_out(alloc, overlay)
}

/// Advances an exact overlay over a line that does the same in both states, so that it is exact
/// again after the line. `cells` has the values of the recorded state before the line.
///
/// An entry grows in place. It is removed if the states agree in its cell after the line. Cells
/// without an entry get none, since what notes do to a cell depends on its value alone. A recorded
/// value is read only if bytes are appended to an entry that is a missing or an empty file.
pub(crate) fn advance_both<C: Cells>(
    alloc: Global,
    overlay: &mut Overlay,
    cells: &C,
    notes: &Notes,
) -> Result<(), NoMem>
    requires { IsTight overlay.old (C.state cells.now) }
    ensures exact { OnOk result ((t : State) → IsExact overlay.old (C.state cells.now) t
        → IsExact overlay.new (after notes.now (C.state cells.now)) (after notes.now t)) }
    ensures err { OnErr result (overlay.new ≡ overlay.old) }
{
    let plan = Planner::new(alloc, cells, overlay).plan_both(notes)?;
    plan.carry_out(alloc, overlay)
}
