//! The lines that write or read a cell.
ghost use Rattle.std.specs.Prelude.{◌≡◌, OnOk};
ghost use Rattle.retro_history.specs.inner.Numbers.{earliest, first_above};
ghost use Rattle.retro_history.specs.inner.Uses.{no_uses, uses_with};

use crate::line_numbers::LineNumbers;
use crate::line_use::LineUse;
use crate::rising::{earliest, first_above};
use retro_tree::NoMem;
use std::alloc::Global;

/// The numbers of the lines that write a cell, and of those that read it.
#[derive(Drop)]
pub(crate) struct Uses {
    pub(crate) written: LineNumbers,
    pub(crate) read: LineNumbers,
}

impl Uses {
    /// Returns no lines. Takes no memory.
    pub(crate) fn new(alloc: Global) -> Uses
        ensures { result ≡ no_uses }
    {
        Uses {
            written: LineNumbers::new(alloc),
            read: LineNumbers::new(alloc),
        }
    }

    /// Adds a line to the writers if it changes the cell, and to the readers if it reads the cell.
    /// The line's number must be above those of the lines added before.
    pub(crate) fn add(&mut self, used: &LineUse<'_>) -> Result<(), NoMem>
        ensures { OnOk result (self.new ≡ uses_with used.now self.old) }
    {
        if !used.changes.is_empty() {
            self.written.add(used.number)?;
        }
        if used.reads {
            self.read.add(used.number)?;
        }
        Ok(())
    }

    /// Returns the first line after `after` that writes or reads the cell, or `None` if there is
    /// none.
    pub(crate) fn next(&self, after: u32) -> Option<u32>
        ensures { result ≡ earliest (first_above after self.now.written)
            (first_above after self.now.read) }
    {
        earliest(
            first_above(self.written.as_slice(), after),
            first_above(self.read.as_slice(), after),
        )
    }
}
