//! Errors of folders and plans.
ghost use Rattle.std.specs.Prelude.{◌≡◌};
ghost use Rattle.casebook_folder.specs.declared.folder_error.FolderError.TheVariants as errors;

use crate::NoMem;
use std::alloc::AllocFailed;
use thiserror::Error;

/// Why a folder isn't read or changed, or rows aren't taken.
#[derive(Clone, Copy, Debug, Drop, PartialEq, Eq, Error)]
pub enum FolderError {
    /// Allocation failed.
    #[error("out of memory")]
    NoMem,
    /// The system refused, or a read or a write failed.
    #[error("a read or a write failed")]
    Failed,
    /// A path held something else just before a step than when it was looked at. The step isn't
    /// made.
    #[error("a path was changed by somebody else")]
    Changed,
    /// A path holds neither what its row says that was there nor what it is to hold. No step is
    /// made.
    #[error("a path holds something else than the plan says")]
    Differs,
    /// A row of a plan is neither ready nor done.
    #[error("a path isn't ready")]
    NotReady,
    /// Rows aren't in order of their paths, or a path has two.
    #[error("the rows aren't in order of their paths")]
    Unsorted,
}

impl From<NoMem> for FolderError {
    ghost from_gives = { λ _ error. error ≡ errors.NoMem };

    fn from(_error: NoMem) -> FolderError {
        FolderError::NoMem
    }
}

impl<T: Drop> From<AllocFailed<T>> for FolderError {
    ghost from_gives = { λ _ error. error ≡ errors.NoMem };

    fn from(_error: AllocFailed<T>) -> FolderError {
        FolderError::NoMem
    }
}
