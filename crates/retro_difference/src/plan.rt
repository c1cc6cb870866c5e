//! Plans of how an overlay changes over a line.
ghost use Rattle.std.specs.Prelude.{◌≡◌, ◌||◌, OnOk, OnErr, []};
ghost use Rattle.std.specs.FinMap as map;
ghost use Rattle.retro_tree.specs.Notes.{cell_eq};
ghost use Rattle.retro_tree.specs.Overlay.{OverlayMap};
ghost use Rattle.retro_tree.specs.Exact.{IsDifference};
ghost use Rattle.retro_tree.specs.declared.cell.Cell.{Cell as StateCell};
ghost use Rattle.retro_tree.specs.declared.state.State.{State};
ghost use Rattle.retro_difference.specs.inner.Write.{decided_entry};
ghost use Rattle.retro_difference.specs.inner.Plan.{carried_out, IsPlan, is_planned};
ghost use Rattle.retro_difference.specs.inner.Plan.{recorded_value, repaired_value};

use crate::undo::Undo;
use crate::write::Write;
use crate::write_map::WriteMap;
use crate::writing::{remove_all, undo_all, write_all};
use retro_tree::{Cell, NoMem, Overlay};
use std::alloc::Global;

/// What happens to some cells' entries of an overlay.
#[derive(Drop)]
pub(crate) struct Plan {
    /// The writes to make, by cell.
    pub(crate) writes: WriteMap,
    /// The cells whose entries are to be removed.
    pub(crate) removals: Vec<Cell>,
}

impl Plan {
    /// Returns a plan that changes nothing. Takes no memory.
    pub(crate) fn new(alloc: Global) -> Plan
        ensures writes { result.writes ≡ map.empty }
        ensures removals { result.removals.items ≡ [] }
    {
        Plan {
            writes: WriteMap::new(alloc),
            removals: Vec::new(alloc),
        }
    }

    /// Adds what happens to a cell's entry: a write, or `None` to remove the entry.
    #[tactic(auto, using(crate::proofs::Plans::planning))]
    pub(crate) fn add(&mut self, cell: Cell, write: Option<Write>) -> Result<(), NoMem>
        ensures plan { OnOk result ((overlay a b : OverlayMap) (s : State)
            → IsDifference (decided_entry write (map.get overlay cell)) (recorded_value a s cell)
            (repaired_value overlay b s cell)
            → IsPlan overlay a b s self.old.writes self.old.removals.items
            → IsPlan overlay a b s self.new.writes self.new.removals.items) }
        ensures covers { OnOk result ((c : StateCell)
            → is_planned self.new.writes self.new.removals.items c
            ≡ (cell_eq cell c || is_planned self.old.writes self.old.removals.items c)) }
    {
        match write {
            Some(write) => self.writes.insert(cell, write)?,
            None => self.removals.push(cell)?,
        }
        Ok(())
    }

    /// Changes an overlay as planned. If allocation fails, the overlay is unchanged: the writes
    /// come first, and they are undone then. Undoing and removing take no memory.
    pub(crate) fn carry_out(self, alloc: Global, overlay: &mut Overlay) -> Result<(), NoMem>
        ensures ok { OnOk result
            (overlay.new ≡ carried_out self.writes self.removals.items overlay.old) }
        ensures err { OnErr result (overlay.new ≡ overlay.old) }
    {
        let Plan { writes, removals } = self;
        let mut undos = Vec::new(alloc);
        match write_all(overlay, &mut undos, writes) {
            Ok(()) => {
                remove_all(overlay, removals.as_slice());
                Ok(())
            }
            Err(error) => {
                undo_all(overlay, undos);
                Err(error)
            }
        }
    }
}
