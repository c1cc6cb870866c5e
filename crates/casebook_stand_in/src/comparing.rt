//! Compares what texts do with what was observed.
ghost use Rattle.std.specs.Prelude.{◌≡◌, ◌≢◌, ◌↔◌, IfOk, IsTrue, MatchOption};
ghost use Rattle.std.specs.FinMap as map;
ghost use Rattle.retro_tree.specs.Cell.{value as value_at};
ghost use Rattle.retro_tree.specs.Commit.{committed};
ghost use Rattle.retro_tree.specs.Overlay.{Fits};
ghost use Rattle.retro_tree.specs.State.{SameSessions};
ghost use Rattle.casebook_stand_in.specs.Effect.{observed};

use crate::NoMem;
use crate::effect::Effect;
use retro_tree::{Cell, Overlay, State};
use std::alloc::Global;

/// Returns whether a cell of a state has the observed value once some cells are set.
fn is_as_observed(
    alloc: Global,
    state: &State,
    cells: &Overlay,
    effect: &Effect,
    cell: &Cell,
) -> Result<bool, NoMem>
    requires { Fits cells.now }
    ensures { IfOk result (λ same. IsTrue same ↔ (value_at cell.now (committed cells.now state.now)
        ≡ value_at cell.now (observed effect.now state.now))) }
{
    let now = cells.value(alloc, state, cell)?;
    match effect.cells().get_value(cell) {
        Some(seen) => Ok(now.is_same(seen)),
        None => Ok(now.is_same(&state.value(alloc, cell)?)),
    }
}

/// Returns a cell of a state that doesn't have the observed value once some cells are set, or
/// `None` if the state is then the observed one. Looks only at the cells of the effect, which come
/// first, and at these cells.
pub(crate) fn first_unlike(
    alloc: Global,
    state: &State,
    cells: &Overlay,
    effect: &Effect,
) -> Result<Option<Cell>, NoMem>
    requires fits { Fits cells.now }
    requires sessions { SameSessions (committed cells.now state.now) state.now }
    requires session { IsTrue (map.contains_key state.now.sessions effect.now.sid) }
    ensures { IfOk result (λ found. MatchOption found
        (committed cells.now state.now ≡ observed effect.now state.now)
        (λ c. value_at c (committed cells.now state.now)
        ≢ value_at c (observed effect.now state.now))) }
{
    let seen = effect.cells();
    for (cell, _) in seen.iter() {
        if !is_as_observed(alloc, state, cells, effect, cell)? {
            return Ok(Some(cell.copy()?));
        }
    }
    for (cell, _) in cells.iter() {
        if seen.get(cell).is_none() {
            if !is_as_observed(alloc, state, cells, effect, cell)? {
                return Ok(Some(cell.copy()?));
            }
        }
    }
    Ok(None)
}
