//! The progress of a search.
ghost use Rattle.std.specs.Prelude.{◌≡◌, ◌++◌, ◌||◌, OnOk};
ghost use Rattle.retro_text.specs.Search.{search_status};
ghost use Rattle.retro_utils.specs.Searching.{nothing_found, search_done, with_read_fault};

use crate::done::Done;
use crate::reason::Reason;
use retro_text::{Found, Search};
use retro_tree::{Bytes, NoMem};
use std::alloc::Global;

/// What a search has printed so far, whether it has selected a line, and whether it has failed on
/// an operand.
#[derive(Drop)]
pub(crate) struct Progress {
    pub out: Bytes,
    pub err: Bytes,
    /// Whether a line is selected.
    pub selected: bool,
    /// Whether an operand couldn't be read.
    pub fault: bool,
}

impl Progress {
    /// Returns the progress of a search that has read nothing.
    pub(crate) fn new(alloc: Global) -> Progress
        ensures { result ≡ nothing_found }
    {
        Progress {
            out: Bytes::new(alloc),
            err: Bytes::new(alloc),
            selected: false,
            fault: false,
        }
    }

    /// Adds what was found in an operand.
    pub(crate) fn add(&mut self, found: &Found) -> Result<(), NoMem>
        ensures { OnOk result (self.new ≡ record self.old {
          out = self.old.out ++ found.now.output;
          selected = self.old.selected || found.now.selected;
        }) }
    {
        self.out.extend(found.output.as_slice())?;
        self.selected = self.selected || found.selected;
        Ok(())
    }

    /// Adds the diagnostic of an operand that can't be read.
    pub(crate) fn fail(&mut self, operand: &str, reason: Reason) -> Result<(), NoMem>
        ensures { OnOk result (self.new ≡ with_read_fault operand.now reason self.old) }
    {
        reason.push_fault(&mut self.err, "grep", operand)?;
        self.fault = true;
        Ok(())
    }

    /// Returns the result of the search.
    pub(crate) fn into_done(self, search: &Search) -> Done
        ensures { result ≡ search_done search.now self }
    {
        let status = search.status(self.selected, self.fault);
        Done {
            out: self.out,
            err: self.err,
            status,
        }
    }
}
