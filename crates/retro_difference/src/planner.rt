//! The planning of how an exact overlay changes over a line.
ghost use Rattle.std.specs.Prelude.{◌≡◌, ◌||◌, IfOk, OnOk, None, []};
ghost use Rattle.std.specs.Option.{option_copied};
ghost use Rattle.std.specs.FinMap as map;
ghost use Rattle.retro_tree.specs.Notes.{after, cell_eq};
ghost use Rattle.retro_tree.specs.Overlay.{OverlayMap};
ghost use Rattle.retro_tree.specs.Exact.{IsExact, IsTight};
ghost use Rattle.retro_tree.specs.declared.cell.Cell.{Cell as StateCell};
ghost use Rattle.retro_tree.specs.declared.state.State.{State};
ghost use Rattle.retro_difference.specs.inner.Plan.{carried_out, IsPlan, is_planned, Covers};

use crate::decision::{decide, decide_both};
use crate::overlays::overlay_of;
use crate::plan::Plan;
use retro_tree::{Cell, Cells, NoMem, Notes, Overlay, OverlayEntry};
use std::alloc::Global;

/// A planner of how an exact overlay changes over a line: it has the recorded state before the
/// line, and the overlay that makes the repaired state of it.
#[derive(Drop)]
pub(crate) struct Planner<'a, C: Cells> {
    alloc: Global,
    cells: &'a C,
    overlay: &'a Overlay,
}

impl<'a, C: Cells> Planner<'a, C> {
    /// Returns a planner. Takes no memory.
    pub(crate) fn new(alloc: Global, cells: &'a C, overlay: &'a Overlay) -> Self
        ensures cells { result.cells.now ≡ cells.now }
        ensures overlay { result.overlay.now ≡ overlay.now }
    {
        Planner {
            alloc,
            cells,
            overlay,
        }
    }

    /// Plans one cell, with the effects on it in the recorded and in the repaired state.
    fn plan_cell(
        &self,
        plan: &mut Plan,
        cell: Cell,
        recorded: Option<&OverlayEntry>,
        chosen: Option<OverlayEntry>,
    ) -> Result<(), NoMem>
        requires { IsTight self.now.overlay.now (C.state self.now.cells.now) }
        ensures plan { OnOk result ((a b : OverlayMap)
            → map.get a cell ≡ option_copied recorded.entry
            → map.get b cell ≡ chosen
            → IsPlan self.now.overlay.now a b (C.state self.now.cells.now)
            plan.old.writes plan.old.removals.items
            → IsPlan self.now.overlay.now a b (C.state self.now.cells.now)
            plan.new.writes plan.new.removals.items) }
        ensures covers { OnOk result ((c : StateCell)
            → is_planned plan.new.writes plan.new.removals.items c
            ≡ (cell_eq cell c || is_planned plan.old.writes plan.old.removals.items c)) }
    {
        let value = self.cells.get(&cell);
        let write = decide(self.alloc, value, self.overlay.get(&cell), recorded, chosen)?;
        plan.add(cell, write)
    }

    /// Plans the cells on which only the recorded notes have an effect.
    #[tactic(auto, using(crate::proofs::Covering::covering))]
    fn plan_recorded(
        &self,
        plan: &mut Plan,
        recorded: &Overlay,
        chosen: &Overlay,
    ) -> Result<(), NoMem>
        requires tight { IsTight self.now.overlay.now (C.state self.now.cells.now) }
        requires writes { plan.old.writes ≡ map.empty }
        requires removals { plan.old.removals.items ≡ [] }
        ensures plan { OnOk result (IsPlan self.now.overlay.now recorded.now chosen.now
            (C.state self.now.cells.now) plan.new.writes plan.new.removals.items) }
        ensures covers { OnOk result (Covers self.now.overlay.now recorded.now chosen.now
            (C.state self.now.cells.now) plan.new.writes plan.new.removals.items
            [] (map.entries chosen.now)) }
    {
        for (cell, effect) in recorded.iter() {
            if chosen.get(cell).is_none() {
                self.plan_cell(plan, cell.copy()?, Some(effect), None)?;
            }
        }
        Ok(())
    }

    /// Plans the cells on which the chosen notes have an effect.
    #[tactic(auto, using(crate::proofs::Covering::covering))]
    fn plan_chosen(&self, plan: &mut Plan, recorded: &Overlay, chosen: Overlay) -> Result<(), NoMem>
        requires tight { IsTight self.now.overlay.now (C.state self.now.cells.now) }
        requires plan { IsPlan self.now.overlay.now recorded.now chosen
            (C.state self.now.cells.now) plan.old.writes plan.old.removals.items }
        requires covers { Covers self.now.overlay.now recorded.now chosen
            (C.state self.now.cells.now) plan.old.writes plan.old.removals.items
            [] (map.entries chosen) }
        ensures plan { OnOk result (IsPlan self.now.overlay.now recorded.now chosen
            (C.state self.now.cells.now) plan.new.writes plan.new.removals.items) }
        ensures covers { OnOk result (Covers self.now.overlay.now recorded.now chosen
            (C.state self.now.cells.now) plan.new.writes plan.new.removals.items [] []) }
    {
        for (cell, effect) in chosen.into_entries() {
            let recorded_effect = recorded.get(&cell);
            self.plan_cell(plan, cell, recorded_effect, Some(effect))?;
        }
        Ok(())
    }

    /// Plans the cells with an entry on which notes have an effect, the same one in both states.
    /// The other cells need no plan: a cell without an entry has the same value in both states
    /// before the notes, and so after them.
    #[tactic(auto, using(crate::proofs::Covering::covering))]
    fn plan_entries(&self, plan: &mut Plan, effects: Overlay) -> Result<(), NoMem>
        requires tight { IsTight self.now.overlay.now (C.state self.now.cells.now) }
        requires writes { plan.old.writes ≡ map.empty }
        requires removals { plan.old.removals.items ≡ [] }
        ensures plan { OnOk result (IsPlan self.now.overlay.now effects effects
            (C.state self.now.cells.now) plan.new.writes plan.new.removals.items) }
        ensures covers { OnOk result (Covers self.now.overlay.now effects effects
            (C.state self.now.cells.now) plan.new.writes plan.new.removals.items [] []) }
    {
        for (cell, effect) in effects.into_entries() {
            if let Some(entry) = self.overlay.get(&cell) {
                let write = decide_both(self.cells, &cell, entry, effect);
                plan.add(cell, write)?;
            }
        }
        Ok(())
    }

    /// Plans a line. It has the notes `recorded` in the recorded state, and `chosen` in the
    /// repaired one.
    #[tactic(auto, using(crate::proofs::Advanced::advancing))]
    pub(crate) fn plan(&self, recorded: &Notes, chosen: &Notes) -> Result<Plan, NoMem>
        requires { IsTight self.now.overlay.now (C.state self.now.cells.now) }
        ensures { IfOk result (λ plan. (t : State)
            → IsExact self.now.overlay.now (C.state self.now.cells.now) t
            → IsExact (carried_out plan.writes plan.removals.items self.now.overlay.now)
            (after recorded.now (C.state self.now.cells.now)) (after chosen.now t)) }
    {
        let recorded = overlay_of(self.alloc, recorded)?;
        let chosen = overlay_of(self.alloc, chosen)?;
        let mut plan = Plan::new(self.alloc);
        self.plan_recorded(&mut plan, &recorded, &chosen)?;
        self.plan_chosen(&mut plan, &recorded, chosen)?;
        Ok(plan)
    }

    /// Plans a line that has the same notes in both states.
    #[tactic(auto, using(crate::proofs::Advanced::advancing))]
    pub(crate) fn plan_both(&self, notes: &Notes) -> Result<Plan, NoMem>
        requires { IsTight self.now.overlay.now (C.state self.now.cells.now) }
        ensures { IfOk result (λ plan. (t : State)
            → IsExact self.now.overlay.now (C.state self.now.cells.now) t
            → IsExact (carried_out plan.writes plan.removals.items self.now.overlay.now)
            (after notes.now (C.state self.now.cells.now)) (after notes.now t)) }
    {
        let effects = overlay_of(self.alloc, notes)?;
        let mut plan = Plan::new(self.alloc);
        self.plan_entries(&mut plan, effects)?;
        Ok(plan)
    }
}
