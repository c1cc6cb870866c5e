//! What a repair is asked.
ghost use Rattle.std.specs.Prelude.{◌≡◌, IfErr, OnOk};
ghost use Rattle.retro_rounds.specs.Refusals.{IsAccepted, IsRefusal};

use crate::pieces::are_cuts;
use retro_keep::{Edit, Recording};
use retro_redo::RepairFault;

/// The greatest number of workers.
pub const MAX_WORKERS: usize = 16;

/// What is to be repaired, with which edits, and in which pieces.
#[derive(Clone, Copy)]
pub(crate) struct RoundsRequest<'a> {
    pub(crate) recording: &'a Recording,
    /// The edits of lines. An edit may be in the list twice.
    pub(crate) edits: &'a [Edit],
    /// The numbers of lines of the pieces. The last one is that of all further pieces.
    pub(crate) cuts: &'a [u32],
    /// The greatest number of threads that run jobs beside this one.
    pub(crate) workers: usize,
}

impl RoundsRequest<'_> {
    /// Returns `Ok` if the request can be answered, and otherwise the first refusal: too many
    /// workers, no cuts or a zero among them, the least number that two different edits name, the
    /// least edited number, from 1 on, that is below the one at which the recording begins, or the
    /// least edited number that no line has.
    pub(crate) fn check(&self) -> Result<(), RepairFault>
        ensures ok { OnOk result
            (IsAccepted self.now.workers self.now.cuts.now self.now.edits.now
            self.now.recording.now) }
        ensures err { IfErr result (λ fault.
            IsRefusal self.now.workers self.now.cuts.now self.now.edits.now
            self.now.recording.now fault) }
    {
        if self.workers > MAX_WORKERS {
            return Err(RepairFault::TooManyWorkers);
        }
        if !are_cuts(self.cuts) {
            return Err(RepairFault::NoCut);
        }
        self.recording.test_edits(self.edits)?;
        Ok(())
    }
}
