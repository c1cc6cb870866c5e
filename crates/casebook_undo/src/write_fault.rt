//! Faults of writing undo files.
ghost use Rattle.std.specs.Prelude.{◌≡◌};
ghost use Rattle.casebook_undo.specs.declared.write_fault.WriteFault.TheVariants as faults;

use crate::NoMem;
use std::alloc::AllocFailed;
use thiserror::Error;

/// Why rows aren't written.
#[derive(Clone, Copy, Debug, Drop, PartialEq, Eq, Error)]
pub enum WriteFault {
    /// Allocation failed.
    #[error("out of memory")]
    NoMem,
    /// A row has something that is blocked, or a mode above [`MODE_LIMIT`](crate::MODE_LIMIT).
    #[error("a row can't be kept in an undo file")]
    Unwritable,
}

impl From<NoMem> for WriteFault {
    ghost from_gives = { λ _ fault. fault ≡ faults.NoMem };

    fn from(_error: NoMem) -> WriteFault {
        WriteFault::NoMem
    }
}

impl<T: Drop> From<AllocFailed<T>> for WriteFault {
    ghost from_gives = { λ _ fault. fault ≡ faults.NoMem };

    fn from(_error: AllocFailed<T>) -> WriteFault {
        WriteFault::NoMem
    }
}
