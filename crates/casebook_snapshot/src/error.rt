//! Errors of snapshots.
ghost use Rattle.std.specs.Prelude.{◌≡◌};
ghost use Rattle.casebook_snapshot.specs.declared.error.SnapshotError.TheVariants as errors;

use crate::NoMem;
use std::alloc::AllocFailed;
use thiserror::Error;

/// Why there is no snapshot.
#[derive(Clone, Copy, Debug, Drop, PartialEq, Eq, Error)]
pub enum SnapshotError {
    /// Allocation failed.
    #[error("out of memory")]
    NoMem,
    /// A read failed.
    #[error("a read failed")]
    Failed,
    /// The root of the folder isn't a directory.
    #[error("the folder isn't a directory")]
    NotADirectory,
}

impl From<NoMem> for SnapshotError {
    ghost from_gives = { λ _ error. error ≡ errors.NoMem };

    fn from(_error: NoMem) -> SnapshotError {
        SnapshotError::NoMem
    }
}

impl<T: Drop> From<AllocFailed<T>> for SnapshotError {
    ghost from_gives = { λ _ error. error ≡ errors.NoMem };

    fn from(_error: AllocFailed<T>) -> SnapshotError {
        SnapshotError::NoMem
    }
}
