//! Faults of about documents.
ghost use Rattle.std.specs.Prelude.{◌≡◌};
ghost use Rattle.casebook_about.specs.declared.fault.AboutFault.TheVariants as faults;

use std::alloc::{AllocError, AllocFailed};
use thiserror::Error;

/// A part of an about document.
#[derive(Clone, Copy, Debug, Drop, PartialEq, Eq, Error)]
pub enum Part {
    /// The rows of sessions.
    #[error("sessions")]
    Sessions,
    /// The rows of lines.
    #[error("lines")]
    Lines,
}

/// Why a text is no about document, or why reading it failed.
#[derive(Clone, Copy, Debug, Drop, PartialEq, Eq, Error)]
pub enum AboutFault {
    /// Allocation failed.
    #[error("out of memory")]
    NoMem,
    /// The text isn't a JSON value.
    #[error("not a JSON value")]
    NotJson,
    /// The value isn't an object with `"about": 1`.
    #[error("not an about document")]
    NotAbout,
    /// A part isn't a list.
    #[error("{0}: not a list")]
    NotAList(Part),
    /// A row doesn't begin as rows of its part do.
    #[error("{part}, row {place}: not a row")]
    BadRow {
        /// The part that the row is in.
        part: Part,
        /// The row's place. The first is 1.
        place: usize,
    },
}

impl From<AllocError> for AboutFault {
    ghost from_gives = { λ _ fault. fault ≡ faults.NoMem };

    fn from(_error: AllocError) -> AboutFault {
        AboutFault::NoMem
    }
}

impl<T: Drop> From<AllocFailed<T>> for AboutFault {
    ghost from_gives = { λ _ fault. fault ≡ faults.NoMem };

    fn from(_error: AllocFailed<T>) -> AboutFault {
        AboutFault::NoMem
    }
}
