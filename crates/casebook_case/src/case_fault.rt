//! Why there is no case.
ghost use Rattle.std.specs.Prelude.{◌≡◌};
ghost use Rattle.casebook_case.specs.Reads.{fault_of_spool};
ghost use Rattle.casebook_case.specs.declared.case_fault.CaseFault.TheVariants as faults;

use crate::NoMem;
use casebook_observe::SpoolError;
use std::alloc::AllocFailed;
use thiserror::Error;

/// Why bytes aren't the document of a case, or why a spool has none. Places and rows are counted
/// from 1.
#[derive(Clone, Copy, Debug, Drop, PartialEq, Eq, Error)]
pub enum CaseFault {
    /// Allocation failed.
    #[error("out of memory")]
    NoMem,
    /// The system refused to read the spool.
    #[error("the spool can't be read")]
    Unread,
    /// A file of the spool isn't UTF-8.
    #[error("a file of the spool isn't text")]
    NotText,
    /// The bytes aren't UTF-8, or not exactly one JSON value.
    #[error("not a JSON value")]
    NotJson,
    /// The value isn't an object with `"case": 1`, texts `"first"`, `"lines"` and `"unseen"`, and a
    /// list `"contents"`.
    #[error("not a case")]
    NotACase,
    /// What is at this place of the contents isn't bytes.
    #[error("content {0}: not hexadecimal digits")]
    BadContent(usize),
    /// The first look isn't one.
    #[error("the first look can't be read")]
    BadFirst,
    /// A row of the observations is neither a note nor a record.
    #[error("row {0} of the observations is damaged")]
    BadLine(usize),
    /// A row of the first look names bytes that are missing or were altered.
    #[error("row {0} of the first look: its bytes are missing")]
    MissingFirst(usize),
    /// A row of the observations names bytes that are missing or were altered.
    #[error("row {0} of the observations: its bytes are missing")]
    MissingLine(usize),
}

impl From<NoMem> for CaseFault {
    ghost from_gives = { λ _ fault. fault ≡ faults.NoMem };

    fn from(_error: NoMem) -> CaseFault {
        CaseFault::NoMem
    }
}

impl<T: Drop> From<AllocFailed<T>> for CaseFault {
    ghost from_gives = { λ _ fault. fault ≡ faults.NoMem };

    fn from(_error: AllocFailed<T>) -> CaseFault {
        CaseFault::NoMem
    }
}

impl From<SpoolError> for CaseFault {
    ghost from_gives = { λ error fault. fault ≡ fault_of_spool error };

    fn from(error: SpoolError) -> CaseFault {
        match error {
            SpoolError::NoMem => CaseFault::NoMem,
            SpoolError::Failed => CaseFault::Unread,
        }
    }
}
