//! Faults of rows.
ghost use Rattle.std.specs.Prelude.{◌≡◌};
ghost use Rattle.casebook_spool.specs.declared.row_fault.RowFault.TheVariants as faults;
ghost use Rattle.casebook_spool.specs.inner.Faults.{ReadsRow, row_fault};

use crate::NoMem;
use casebook_record::RecordError;
use std::alloc::AllocFailed;

/// Why a row isn't read.
#[derive(Clone, Copy, Debug, Drop, PartialEq, Eq)]
pub(crate) enum RowFault {
    /// Allocation failed.
    NoMem,
    /// It isn't one.
    Wrong,
}

impl RowFault {
    /// Returns the fault of a row whose record has an error.
    pub(crate) fn of(error: RecordError) -> RowFault
        ensures { result ≡ row_fault error }
    {
        match error {
            RecordError::NoMem => RowFault::NoMem,
            _ => RowFault::Wrong,
        }
    }
}

impl From<NoMem> for RowFault {
    ghost from_gives = { λ _ fault. fault ≡ faults.NoMem };

    fn from(_error: NoMem) -> RowFault {
        RowFault::NoMem
    }
}

impl<T: Drop> From<AllocFailed<T>> for RowFault {
    ghost from_gives = { λ _ fault. fault ≡ faults.NoMem };

    fn from(_error: AllocFailed<T>) -> RowFault {
        RowFault::NoMem
    }
}

/// Returns what was read, or that the row is wrong if nothing was.
pub(crate) fn or_wrong<T: Drop>(read: Option<T>) -> Result<T, RowFault>
    ensures { ReadsRow result read }
{
    read.ok_or(RowFault::Wrong)
}
