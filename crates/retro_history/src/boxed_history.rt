//! Boxed histories of cells.
ghost use Rattle.std.specs.Prelude.{◌≡◌, IfOk, OnOk};
ghost use Rattle.retro_history.specs.inner.CellHistory.{history_used};

use crate::cell_history::CellHistory;
use crate::line_use::LineUse;
use retro_tree::NoMem;
use std::alloc::Global;
use std::marker::Model;

/// The history of a cell, in a box. A node of a `BTreeMap` allocates space for more entries than it
/// has, so a map of boxes wastes less memory than a map of histories.
#[derive(Drop)]
pub(crate) struct BoxedHistory<'a> {
    history: Box<CellHistory<'a>>,
}

impl<'a> Model for BoxedHistory<'a> {
    ghost use Rattle.retro_history.specs.inner.CellHistoryCode.{coded_history};
    ghost use Rattle.retro_history.specs.declared.cell_history.CellHistory.{CellHistory};

    ghost Value = { CellHistory };

    ghost coded = { coded_history };

    ghost view = { λ a. a.history.value };
}

impl<'a> BoxedHistory<'a> {
    /// Moves a history into a box.
    pub(crate) fn new(alloc: Global, history: CellHistory<'a>) -> Result<BoxedHistory<'a>, NoMem>
        ensures { IfOk result (λ boxed. boxed ≡ history.entry) }
    {
        Ok(BoxedHistory {
            history: Box::new(alloc, history)?,
        })
    }

    /// Borrows the history.
    pub(crate) fn get(&self) -> &CellHistory<'a>
        ensures { result.now ≡ self.now }
    {
        &self.history
    }

    /// Adds how a line uses the cell. The line's number must be above those of the lines added
    /// before.
    pub(crate) fn add(&mut self, used: &LineUse<'a>) -> Result<(), NoMem>
        ensures { OnOk result (self.new ≡ history_used used.now self.old) }
    {
        self.history.add(used)
    }
}
