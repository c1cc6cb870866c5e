//! The history of one cell.
ghost use Rattle.std.specs.Prelude.{◌≡◌, OnOk};
ghost use Rattle.retro_tree.specs.ValueRef.{ref_value};
ghost use Rattle.retro_history.specs.inner.CellHistory.{history_used, new_history};

use crate::line_use::LineUse;
use crate::track::Track;
use crate::uses::Uses;
use retro_tree::{NoMem, ValueRef};
use std::alloc::Global;

/// The versions of a cell, and the lines that write or read it.
#[derive(Drop)]
pub(crate) struct CellHistory<'a> {
    pub(crate) track: Track<'a>,
    pub(crate) uses: Uses,
}

impl<'a> CellHistory<'a> {
    /// Returns the history of a cell that no line uses. `first` is its value before the first line.
    /// Takes no memory.
    pub(crate) fn new(alloc: Global, first: ValueRef<'a>) -> CellHistory<'a>
        ensures { result ≡ new_history (ref_value first.entry) }
    {
        CellHistory {
            track: Track::new(alloc, first),
            uses: Uses::new(alloc),
        }
    }

    /// Adds how a line uses the cell. The line's number must be above those of the lines added
    /// before.
    pub(crate) fn add(&mut self, used: &LineUse<'a>) -> Result<(), NoMem>
        ensures { OnOk result (self.new ≡ history_used used.now self.old) }
    {
        self.track.apply_all(used.number, used.changes.as_slice())?;
        self.uses.add(used)
    }
}
