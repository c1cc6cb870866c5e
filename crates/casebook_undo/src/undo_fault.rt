//! Faults of undo files.
ghost use Rattle.std.specs.Prelude.{◌≡◌};
ghost use Rattle.casebook_undo.specs.declared.undo_fault.UndoFault.TheVariants as faults;

use crate::NoMem;
use std::alloc::AllocFailed;
use thiserror::Error;

/// Why bytes aren't an undo file, or why reading it failed.
#[derive(Clone, Copy, Debug, Drop, PartialEq, Eq, Error)]
pub enum UndoFault {
    /// Allocation failed.
    #[error("out of memory")]
    NoMem,
    /// The bytes aren't UTF-8, or not exactly one JSON value.
    #[error("not a JSON value")]
    NotJson,
    /// The value isn't an object with `"undo": 1`, a path `"at"` and a list `"rows"`.
    #[error("not an undo file")]
    NotAnUndoFile,
    /// The row at this place isn't one. The first place is 1.
    #[error("row {0}: not a row")]
    BadRow(usize),
    /// The rows aren't in order of their paths, or a path has two.
    #[error("the rows aren't in order of their paths")]
    Unsorted,
}

impl From<NoMem> for UndoFault {
    ghost from_gives = { λ _ fault. fault ≡ faults.NoMem };

    fn from(_error: NoMem) -> UndoFault {
        UndoFault::NoMem
    }
}

impl<T: Drop> From<AllocFailed<T>> for UndoFault {
    ghost from_gives = { λ _ fault. fault ≡ faults.NoMem };

    fn from(_error: AllocFailed<T>) -> UndoFault {
        UndoFault::NoMem
    }
}
