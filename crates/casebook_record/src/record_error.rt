//! Errors of records.
ghost use Rattle.std.specs.Prelude.{◌≡◌, ok_or};
ghost use Rattle.casebook_record.specs.Reads.{Reads};
ghost use Rattle.casebook_record.specs.declared.record_error.RecordError.TheVariants as errors;

use crate::NoMem;
use std::alloc::AllocFailed;
use thiserror::Error;

/// A field of a record, or two or more that say one thing.
#[derive(Clone, Copy, Debug, Drop, PartialEq, Eq, Error)]
pub enum Field {
    /// The session.
    #[error("session")]
    Session,
    /// The time.
    #[error("time")]
    Time,
    /// The user's number.
    #[error("user")]
    User,
    /// The directory.
    #[error("directory")]
    Directory,
    /// The session from which the session was started.
    #[error("parent")]
    Parent,
    /// The umask.
    #[error("umask")]
    Umask,
    /// The number of a line, or how many lines there were.
    #[error("number")]
    Number,
    /// The statuses of a pipeline.
    #[error("statuses")]
    Statuses,
    /// Whether the line is shown, and its text.
    #[error("line")]
    Line,
    /// Whether the variables are the same, and their text.
    #[error("variables")]
    Variables,
    /// Whether functions, aliases and options are the same, and their text.
    #[error("shell")]
    Shell,
    /// The status of a session.
    #[error("status")]
    Status,
}

/// Why bytes aren't a record, or why reading them failed.
#[derive(Clone, Copy, Debug, Drop, PartialEq, Eq, Error)]
pub enum RecordError {
    /// Allocation failed.
    #[error("out of memory")]
    NoMem,
    /// No NUL ends the last field, or fields are missing.
    #[error("the record is cut off")]
    CutOff,
    /// There are more fields than the kind has.
    #[error("the record has too many fields")]
    TooMany,
    /// The kind isn't `start`, `begin`, `end` or `exit`.
    #[error("the kind is unknown")]
    UnknownKind,
    /// This field isn't one.
    #[error("not a record's field: {0}")]
    Wrong(Field),
}

impl Field {
    /// Returns what this field is read as, or that it is wrong.
    pub(crate) fn or_wrong<T: Drop>(self, read: Option<T>) -> Result<T, RecordError>
        ensures { Reads (λ x. x) result (ok_or read (errors.Wrong self)) }
    {
        match read {
            Some(value) => Ok(value),
            None => Err(RecordError::Wrong(self)),
        }
    }
}

impl From<NoMem> for RecordError {
    ghost from_gives = { λ _ error. error ≡ errors.NoMem };

    fn from(_error: NoMem) -> RecordError {
        RecordError::NoMem
    }
}

impl<T: Drop> From<AllocFailed<T>> for RecordError {
    ghost from_gives = { λ _ error. error ≡ errors.NoMem };

    fn from(_error: AllocFailed<T>) -> RecordError {
        RecordError::NoMem
    }
}
