//! The files that `tee` has opened.
ghost use Rattle.std.specs.Prelude.{◌≡◌, [], OnOk};
ghost use Rattle.retro_utils.specs.Outcomes.{nothing_done};
ghost use Rattle.retro_utils.specs.Tee.{files_view, with_file};

use crate::done::Done;
use crate::reason::Reason;
use retro_tree::{NoMem, Path};
use std::alloc::Global;

/// The files that are open, and the faults of the other operands.
#[derive(Drop)]
pub(crate) struct Opened<'a> {
    /// Each operand with its path.
    pub files: Vec<(&'a str, Path)>,
    /// The faults.
    pub done: Done,
}

impl<'a> Opened<'a> {
    /// Returns no files and no faults.
    pub(crate) fn nothing(alloc: Global) -> Opened<'a>
        ensures { files_view result ≡ ([], nothing_done 0) }
    {
        Opened {
            files: Vec::new(alloc),
            done: Done::nothing(alloc, 0),
        }
    }

    /// Adds the file that an operand names, or the fault of the operand.
    pub(crate) fn add(
        &mut self,
        operand: &'a str,
        outcome: Result<Path, Reason>,
    ) -> Result<(), NoMem>
        ensures { OnOk result
            (files_view self.new ≡ with_file operand.entry.now outcome (files_view self.old)) }
    {
        match outcome {
            Ok(path) => Ok(self.files.push((operand, path))?),
            Err(reason) => self.done.fault("tee", operand, reason),
        }
    }
}
