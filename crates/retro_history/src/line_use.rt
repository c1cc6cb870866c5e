//! How a line uses a cell.
ghost use Rattle.std.specs.Prelude.{◌≡◌, ◌++◌, ◌∷◌, [], true, OnOk, OnErr};
ghost use Rattle.retro_history.specs.inner.LineUse.{no_use};

use retro_tree::{Change, NoMem};
use std::alloc::Global;
use std::marker::Model;

/// How a line uses a cell.
#[derive(Drop)]
pub(crate) struct LineUse<'a> {
    /// The number of the line.
    pub(crate) number: u32,
    /// Whether a query of the line reads the cell. A listing of the parent of the cell's path
    /// doesn't count.
    pub(crate) reads: bool,
    /// The line's changes of the cell, in order.
    pub(crate) changes: Vec<&'a Change>,
}

impl<'a> Model for LineUse<'a> {
    ghost use Rattle.std.specs.Prelude.{map};
    ghost use Rattle.retro_history.specs.inner.LineUse.{UseValue, coded_use};

    ghost Value = { UseValue };

    ghost coded = { coded_use };

    ghost view = { λ a. record {
      number = a.number;
      reads = a.reads;
      changes = map (λ change. change.now) a.changes.items;
    } };
}

impl<'a> LineUse<'a> {
    /// Returns a use without reads and changes, of the line with the given number. Takes no memory.
    pub(crate) fn new(alloc: Global, number: u32) -> LineUse<'a>
        ensures { result ≡ no_use number }
    {
        LineUse {
            number,
            reads: false,
            changes: Vec::new(alloc),
        }
    }

    /// Sets that the line reads the cell.
    pub(crate) fn add_read(&mut self)
        ensures { self.new ≡ record self.old { reads = true } }
    {
        self.reads = true;
    }

    /// Appends a change of the cell.
    pub(crate) fn add_change(&mut self, change: &'a Change) -> Result<(), NoMem>
        ensures ok { OnOk result
            (self.new ≡ record self.old { changes = self.old.changes ++ change.now ∷ [] }) }
        ensures err { OnErr result (self.new ≡ self.old) }
    {
        self.changes.push(change)?;
        Ok(())
    }
}
