//! Why a spool isn't imported.
ghost use Rattle.casebook_import.specs.declared.import_error.ImportError.TheVariants as errors;

use crate::NoMem;
use std::alloc::AllocFailed;
use thiserror::Error;

/// Why a spool isn't imported.
#[derive(Clone, Copy, Debug, Drop, PartialEq, Eq, Error)]
pub enum ImportError {
    /// Allocation failed.
    #[error("out of memory")]
    NoMem,
    /// There are more sessions than can be numbered with 32 bits.
    #[error("there are too many sessions")]
    TooManySessions,
}

impl From<NoMem> for ImportError {
    ghost use Rattle.std.specs.Prelude.{◌≡◌};

    ghost from_gives = { λ _ error. error ≡ errors.NoMem };

    fn from(_error: NoMem) -> ImportError {
        ImportError::NoMem
    }
}

impl<T: Drop> From<AllocFailed<T>> for ImportError {
    ghost use Rattle.std.specs.Prelude.{◌≡◌};

    ghost from_gives = { λ _ error. error ≡ errors.NoMem };

    fn from(_error: AllocFailed<T>) -> ImportError {
        ImportError::NoMem
    }
}
