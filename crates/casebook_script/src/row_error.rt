//! Errors of the readers of rows and of their cells.
ghost use Rattle.std.specs.Prelude.{◌≡◌};
ghost use Rattle.casebook_script.specs.declared.row_error.RowError.TheVariants as errors;
ghost use Rattle.casebook_script.specs.inner.RowReads.{or_bad_row};

use crate::NoMem;
use crate::fault::{RowFault, Table, TableFault};
use std::alloc::AllocFailed;

/// Why a row isn't read.
#[derive(Clone, Copy, Debug, Drop, PartialEq, Eq)]
pub(crate) enum RowError {
    /// Allocation failed.
    NoMem,
    /// The row isn't one of its table.
    Fault(RowFault),
}

impl From<NoMem> for RowError {
    ghost from_gives = { λ _ error. error ≡ errors.NoMem };

    fn from(_error: NoMem) -> RowError {
        RowError::NoMem
    }
}

impl<T: Drop> From<AllocFailed<T>> for RowError {
    ghost from_gives = { λ _ error. error ≡ errors.NoMem };

    fn from(_error: AllocFailed<T>) -> RowError {
        RowError::NoMem
    }
}

/// Returns what was read, or the fault of the row at a place.
pub(crate) fn or_bad_row<T: Drop>(
    table: Table,
    row: usize,
    read: Result<T, RowError>,
) -> Result<T, TableFault>
    ensures { result ≡ or_bad_row table row read }
{
    match read {
        Ok(value) => Ok(value),
        Err(RowError::NoMem) => Err(TableFault::NoMem),
        Err(RowError::Fault(why)) => Err(TableFault::BadRow { table, row, why }),
    }
}
