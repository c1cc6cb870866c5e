//! Faults of the parts of a recording.
ghost use Rattle.std.specs.Prelude.{◌≡◌};
ghost use Rattle.retro_keep.specs.RecordingFault.{recording_fault};
ghost use Rattle.retro_keep.specs.declared.recording_fault.RecordingFault.TheVariants as faults;

use crate::script::LinesFault;
use retro_tree::NoMem;
use thiserror::Error;

/// Why a state and lines don't make a recording.
#[derive(Clone, Copy, Debug, Drop, PartialEq, Eq, Error)]
pub enum RecordingFault {
    /// Line numbers don't rise, or the first is below the number at which the recording begins
    /// (refusal 8).
    #[error("line numbers don't rise")]
    NumbersNotRising,
    /// A line's session is missing in the first state (refusal 9).
    #[error("a line's session is missing")]
    UnknownSession,
    /// A change isn't lawful in the state that it changes (refusal 10).
    #[error("a change isn't lawful")]
    LawlessChange,
    /// Allocation failed.
    #[error("out of memory")]
    NoMem,
}

impl From<NoMem> for RecordingFault {
    ghost from_gives = { λ _ fault. fault ≡ faults.NoMem };

    fn from(_error: NoMem) -> RecordingFault {
        RecordingFault::NoMem
    }
}

impl From<LinesFault> for RecordingFault {
    ghost from_gives = { λ lines fault. fault ≡ recording_fault lines };

    fn from(fault: LinesFault) -> RecordingFault {
        match fault {
            LinesFault::NumbersNotRising => RecordingFault::NumbersNotRising,
            LinesFault::UnknownSession => RecordingFault::UnknownSession,
        }
    }
}
