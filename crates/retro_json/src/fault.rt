//! The refusals and errors of reading documents.
ghost use Rattle.std.specs.Prelude.{◌≡◌};
ghost use Rattle.retro_json.specs.Numbers.{refusal_number};
ghost use Rattle.retro_json.specs.ReadFaults.{fault_of_read};
ghost use Rattle.retro_json.specs.RecordingFaults.{lines_refusal, recording_fault};
ghost use Rattle.retro_json.specs.declared.fault.LogFault.TheVariants as faults;

use retro_keep::{LinesFault, RecordingFault};
use retro_tree::NoMem;
use retro_value::ReadError;
use std::alloc::AllocFailed;
use thiserror::Error;

/// The part of a document in which a value has a wrong shape.
#[derive(Clone, Copy, Debug, PartialEq, Eq)]
pub enum Part {
    /// The whole document: it isn't an object, or a key is missing.
    Document,
    /// The version's number.
    Version,
    /// The list of directories and files.
    Tree,
    /// The list of sessions.
    Sessions,
    /// The list of lines.
    Lines,
}

/// Why a document is refused.
#[derive(Clone, Copy, Debug, PartialEq, Eq)]
pub enum Refusal {
    /// The line numbers don't rise.
    NumbersNotRising,
    /// A line's session isn't one of the document's sessions.
    UnknownSession,
    /// The directories and files don't make a lawful tree, or a noted change isn't lawful in the
    /// state that it changes.
    LawlessTree,
    /// A name, a file or a variable's value is too long.
    OverLimit,
    /// The bytes aren't UTF-8, or the text isn't exactly one JSON value.
    NotJson,
    /// A value doesn't have the shape that its place requires.
    WrongShape(Part),
    /// The document has a key that its kind of document doesn't have.
    UnknownKey,
    /// A text for bytes isn't a sequence of pairs of hexadecimal digits.
    BadHex,
    /// The document's version isn't the supported one.
    BadVersion,
}

impl Refusal {
    /// Returns the number under which the program reports this refusal, from 8 to 16. A wrong
    /// shape has the same number in every part.
    pub fn number(self) -> u8
        ensures { result ≡ refusal_number self }
    {
        match self {
            Refusal::NumbersNotRising => 8,
            Refusal::UnknownSession => 9,
            Refusal::LawlessTree => 10,
            Refusal::OverLimit => 11,
            Refusal::NotJson => 12,
            Refusal::WrongShape(_) => 13,
            Refusal::UnknownKey => 14,
            Refusal::BadHex => 15,
            Refusal::BadVersion => 16,
        }
    }
}

/// Why reading a document fails.
#[derive(Debug, Drop, Error)]
pub enum LogFault {
    /// Allocation failed.
    #[error("out of memory")]
    NoMem,
    /// The document is refused.
    #[error("refused: {0:?}")]
    Refused(Refusal),
}

impl From<NoMem> for LogFault {
    ghost from_gives = { λ _ fault. fault ≡ faults.NoMem };

    fn from(_error: NoMem) -> LogFault {
        LogFault::NoMem
    }
}

impl<T: Drop> From<AllocFailed<T>> for LogFault {
    ghost from_gives = { λ _ fault. fault ≡ faults.NoMem };

    fn from(_error: AllocFailed<T>) -> LogFault {
        LogFault::NoMem
    }
}

impl From<ReadError> for LogFault {
    ghost from_gives = { λ error fault. fault ≡ fault_of_read error };

    fn from(error: ReadError) -> LogFault {
        match error {
            ReadError::NoMem => LogFault::NoMem,
            ReadError::NotJson => LogFault::Refused(Refusal::NotJson),
        }
    }
}

impl From<Refusal> for LogFault {
    ghost from_gives = { λ refusal fault. fault ≡ faults.Refused refusal };

    fn from(refusal: Refusal) -> LogFault {
        LogFault::Refused(refusal)
    }
}

impl From<LinesFault> for LogFault {
    ghost from_gives = { λ lines fault. fault ≡ faults.Refused (lines_refusal lines) };

    fn from(fault: LinesFault) -> LogFault {
        match fault {
            LinesFault::NumbersNotRising => LogFault::Refused(Refusal::NumbersNotRising),
            LinesFault::UnknownSession => LogFault::Refused(Refusal::UnknownSession),
        }
    }
}

impl From<RecordingFault> for LogFault {
    ghost from_gives = { λ recording fault. fault ≡ recording_fault recording };

    fn from(fault: RecordingFault) -> LogFault {
        match fault {
            RecordingFault::NumbersNotRising => LogFault::Refused(Refusal::NumbersNotRising),
            RecordingFault::UnknownSession => LogFault::Refused(Refusal::UnknownSession),
            RecordingFault::LawlessChange => LogFault::Refused(Refusal::LawlessTree),
            RecordingFault::NoMem => LogFault::NoMem,
        }
    }
}
