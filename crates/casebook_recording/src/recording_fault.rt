//! Why a case has no recording.
ghost use Rattle.std.specs.Prelude.{◌≡◌};
ghost use Rattle.casebook_recording.specs.Faults.{of_case, of_import, of_tell, of_typed};
ghost use Rattle.casebook_recording.specs.declared.recording_fault.RecordingFault.TheVariants as faults;

use crate::NoMem;
use casebook_case::CaseFault;
use casebook_explain::{LineFault, TellFault};
use casebook_import::ImportError;
use casebook_typed::TypedError;
use std::alloc::AllocFailed;

/// Why a case has no recording.
#[derive(Drop)]
pub enum RecordingFault {
    /// Allocation failed.
    NoMem,
    /// The bytes aren't a case.
    Case(CaseFault),
    /// The record of this observation, counted from 0, contradicts an earlier one.
    Contradiction(usize),
    /// There are more sessions than can be numbered with 32 bits.
    TooManySessions,
    /// What the first look saw isn't lawful: something is in no directory, or a file is too large.
    LawlessState,
    /// The line with this place, counted from 1, can't be explained.
    Line(u32, LineFault),
    /// There are more lines than can be counted with 32 bits.
    TooManyLines,
}

impl From<NoMem> for RecordingFault {
    ghost from_gives = { λ _ fault. fault ≡ faults.NoMem };

    fn from(_error: NoMem) -> RecordingFault {
        RecordingFault::NoMem
    }
}

impl<T: Drop> From<AllocFailed<T>> for RecordingFault {
    ghost from_gives = { λ _ fault. fault ≡ faults.NoMem };

    fn from(_error: AllocFailed<T>) -> RecordingFault {
        RecordingFault::NoMem
    }
}

impl From<CaseFault> for RecordingFault {
    ghost from_gives = { λ cause fault. fault ≡ of_case cause };

    fn from(fault: CaseFault) -> RecordingFault {
        match fault {
            CaseFault::NoMem => RecordingFault::NoMem,
            other => RecordingFault::Case(other),
        }
    }
}

impl From<TypedError> for RecordingFault {
    ghost from_gives = { λ error fault. fault ≡ of_typed error };

    fn from(error: TypedError) -> RecordingFault {
        match error {
            TypedError::NoMem => RecordingFault::NoMem,
            TypedError::Contradiction(at) => RecordingFault::Contradiction(at),
        }
    }
}

impl From<ImportError> for RecordingFault {
    ghost from_gives = { λ error fault. fault ≡ of_import error };

    fn from(error: ImportError) -> RecordingFault {
        match error {
            ImportError::NoMem => RecordingFault::NoMem,
            ImportError::TooManySessions => RecordingFault::TooManySessions,
        }
    }
}

impl From<TellFault> for RecordingFault {
    ghost from_gives = { λ cause fault. fault ≡ of_tell cause };

    fn from(fault: TellFault) -> RecordingFault {
        match fault {
            TellFault::NoMem => RecordingFault::NoMem,
            TellFault::LawlessState => RecordingFault::LawlessState,
            TellFault::Line(place, fault) => RecordingFault::Line(place, fault),
            TellFault::TooManyLines => RecordingFault::TooManyLines,
        }
    }
}
