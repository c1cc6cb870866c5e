//! The cells in which two states differ, with the next line that uses each.
ghost use Rattle.std.specs.Prelude.{◌≡◌, [], IfOk, OnErr, OnOk, true};
ghost use Rattle.std.specs.FinMap as map;
ghost use Rattle.retro_tree.specs.Exact.{IsTight};
ghost use Rattle.retro_tree.specs.declared.cell.Cell.{Cell as CellValue};
ghost use Rattle.retro_keep.specs.Recorded.{recorded_before};
ghost use Rattle.retro_history.specs.Index.{AreNumbered};
ghost use Rattle.retro_difference.specs.Difference.{GoesOver, Stays};
ghost use Rattle.retro_difference.specs.NextUses.{AreNumbersUntil, AreSorted};
ghost use Rattle.retro_difference.specs.NextUses.{first_number, has_cell, has_use, starts_at};
ghost use Rattle.retro_difference.specs.inner.MayDiffer.{may_differ};

use crate::line_run::LineRun;
use crate::next_uses::{NextUses, with_changed};
use retro_history::History;
use retro_tree::{Cell, NoMem, Overlay};
use std::alloc::Global;
use std::collections::BTreeSet;
use std::marker::Model;

/// The cells in which the repaired state differs from the recorded one before a line of a
/// recording, each with its repaired value and with the next line that uses it.
///
/// It is advanced over one line after another. It doesn't know the recorded states. A call that
/// needs one takes it from the history of the recording.
#[derive(Drop)]
pub struct Difference {
    overlay: Overlay,
    uses: NextUses,
}

impl Model for Difference {
    ghost use Rattle.retro_difference.specs.Difference.{DifferenceValue};
    ghost use Rattle.retro_difference.specs.inner.DifferenceCode.{coded_difference};

    ghost Value = { DifferenceValue };

    ghost coded = { coded_difference };

    ghost view = { λ a. record { overlay = a.overlay; uses = a.uses } };
}

impl Difference {
    /// Returns no cells. Takes no memory.
    pub fn none(alloc: Global) -> Difference
        ensures { result ≡ record { overlay = map.empty; uses = [] } }
    {
        Difference {
            overlay: Overlay::new(alloc),
            uses: NextUses::new(alloc),
        }
    }

    /// Returns the cells with their repaired values.
    pub fn overlay(&self) -> &Overlay
        ensures { result.now ≡ self.now.overlay }
    {
        &self.overlay
    }

    /// Returns the cells with their repaired values, without their next uses.
    pub fn into_overlay(self) -> Overlay
        ensures { result ≡ self.overlay }
    {
        self.overlay
    }

    /// Returns the number of the next line that uses one of the cells, or `None` if no line does.
    pub fn next(&self) -> Option<u32>
        ensures { result ≡ first_number self.now.uses }
    {
        self.uses.next()
    }

    /// Returns whether the next line that uses one of the cells has the given number.
    pub fn is_used_at(&self, number: u32) -> bool
        ensures { result ≡ starts_at number self.now.uses }
    {
        self.uses.has_use_at(number)
    }

    /// Returns the numbers, up to `last`, of the lines that use one of the cells. Takes a few
    /// look-ups for each of these lines and each such cell that it uses.
    pub fn numbers_until(
        &self,
        alloc: Global,
        history: &History<'_>,
        last: u32,
    ) -> Result<BTreeSet<u32>, NoMem>
        requires sorted { AreSorted self.now.uses }
        requires rising { AreNumbered history.now.lines }
        ensures { IfOk result (λ numbers. AreNumbersUntil last self.now.overlay
            history.now.lines self.now.uses numbers.keys) }
    {
        self.uses.numbers_until(alloc, history, &self.overlay, last)
    }

    /// Goes over a line of the recording that the history is of.
    ///
    /// If memory runs out, entries that were added to the next uses stay. They do no harm, since
    /// each is of a line that uses its cell. `prune` removes those at the front whose cells don't
    /// differ.
    pub fn advance(
        &mut self,
        alloc: Global,
        history: &History<'_>,
        line: LineRun<'_, '_>,
    ) -> Result<(), NoMem>
        requires { IsTight self.old.overlay (recorded_before line.number history.now) }
        ensures ok { OnOk result (GoesOver history.now line.entry self.old self.new) }
        ensures err { OnErr result (Stays history.now line.entry.number self.old self.new) }
    {
        let cells = self.cells_to_renew(alloc, &line)?;
        if let Err(error) = self.uses.add_cells(alloc, history, cells, line.number) {
            self.uses.prune(0, &self.overlay);
            return Err(error);
        }
        if let Err(error) = line.advance(alloc, &mut self.overlay, &history.at(line.number)) {
            self.uses.prune(0, &self.overlay);
            return Err(error);
        }
        self.uses.prune(line.number, &self.overlay);
        Ok(())
    }

    /// Returns the cells whose next use has to be looked up after a line: those that the line uses
    /// and in which the states differ before it, and, unless it does the same in both states, those
    /// that its notes change in either. A cell may be returned twice, and the states may agree in
    /// it after the line.
    fn cells_to_renew(&self, alloc: Global, line: &LineRun<'_, '_>) -> Result<Vec<Cell>, NoMem>
        ensures used { IfOk result (λ cells. (c : CellValue)
            → has_use line.now.number c self.now.uses ≡ true
            → map.contains_key self.now.overlay c ≡ true → has_cell c cells.items ≡ true) }
        ensures changed { IfOk result (λ cells. (c : CellValue)
            → may_differ line.now c ≡ true → has_cell c cells.items ≡ true) }
    {
        let cells = self.uses.cells_at(alloc, &self.overlay, line.number)?;
        match line.chosen {
            None => Ok(cells),
            Some(chosen) => with_changed(with_changed(cells, line.recorded)?, chosen),
        }
    }
}
