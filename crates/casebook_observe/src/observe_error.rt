//! Errors of observations.
ghost use Rattle.std.specs.Prelude.{◌≡◌};
ghost use Rattle.casebook_observe.specs.Errors.{of_record, of_spool, of_watched};
ghost use Rattle.casebook_observe.specs.declared.observe_error.ObserveError.TheVariants as errors;

use crate::NoMem;
use crate::spool_error::SpoolError;
use crate::watch_error::WatchError;
use casebook_record::RecordError;
use std::alloc::AllocFailed;
use thiserror::Error;

/// Why an observation failed. Then the spool says what it said before.
#[derive(Clone, Copy, Debug, Drop, PartialEq, Eq, Error)]
pub enum ObserveError {
    /// Allocation failed.
    #[error("out of memory")]
    NoMem,
    /// What was sent isn't a record.
    #[error("{0}")]
    Record(RecordError),
    /// The file `first` of the spool isn't a listing.
    #[error("the first look can't be read")]
    First,
    /// A row of the file `lines` is neither a note nor a record.
    #[error("row {1} after byte {0} of the lines is damaged")]
    Lines(u64, usize),
    /// The watched folders couldn't be looked at.
    #[error("{0}")]
    Watched(WatchError),
    /// The spool couldn't be read or written.
    #[error("{0}")]
    Spool(SpoolError),
}

impl From<NoMem> for ObserveError {
    ghost from_gives = { λ _ error. error ≡ errors.NoMem };

    fn from(_error: NoMem) -> ObserveError {
        ObserveError::NoMem
    }
}

impl<T: Drop> From<AllocFailed<T>> for ObserveError {
    ghost from_gives = { λ _ error. error ≡ errors.NoMem };

    fn from(_error: AllocFailed<T>) -> ObserveError {
        ObserveError::NoMem
    }
}

impl From<RecordError> for ObserveError {
    ghost from_gives = { λ cause error. error ≡ of_record cause };

    fn from(error: RecordError) -> ObserveError {
        match error {
            RecordError::NoMem => ObserveError::NoMem,
            other => ObserveError::Record(other),
        }
    }
}

impl From<WatchError> for ObserveError {
    ghost from_gives = { λ cause error. error ≡ of_watched cause };

    fn from(error: WatchError) -> ObserveError {
        match error {
            WatchError::NoMem => ObserveError::NoMem,
            other => ObserveError::Watched(other),
        }
    }
}

impl From<SpoolError> for ObserveError {
    ghost from_gives = { λ cause error. error ≡ of_spool cause };

    fn from(error: SpoolError) -> ObserveError {
        match error {
            SpoolError::NoMem => ObserveError::NoMem,
            other => ObserveError::Spool(other),
        }
    }
}
