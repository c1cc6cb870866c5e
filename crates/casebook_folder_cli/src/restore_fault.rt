//! Why a folder isn't restored.
ghost use Rattle.std.specs.Prelude.{◌≡◌};
ghost use Rattle.casebook_folder_cli.specs.Faults.{fault_of_reading};
ghost use Rattle.casebook_folder_cli.specs.declared.restore_fault.RestoreFault.TheVariants as faults;

use crate::NoMem;
use casebook_snapshot::SnapshotError;
use casebook_undo::UndoFault;
use std::alloc::AllocFailed;

/// Why a folder isn't restored. Nothing is changed, but after `Unfinished`.
#[derive(Clone, Copy, Debug, Drop, PartialEq, Eq)]
pub enum RestoreFault {
    /// Allocation failed.
    NoMem,
    /// The folder couldn't be read.
    Unreadable,
    /// What is named as a folder isn't one.
    NotADirectory,
    /// The undo file couldn't be read or written, or isn't there.
    UndoFailed,
    /// The undo file isn't one.
    BadUndo(UndoFault),
    /// The undo file has other rows than the plan, or a path where nothing can be kept.
    OtherUndo,
    /// A path holds something else than its row says.
    Differs,
    /// A step failed. Those before it are made.
    Unfinished,
}

impl From<NoMem> for RestoreFault {
    ghost from_gives = { λ _ fault. fault ≡ faults.NoMem };

    fn from(_error: NoMem) -> RestoreFault {
        RestoreFault::NoMem
    }
}

impl<T: Drop> From<AllocFailed<T>> for RestoreFault {
    ghost from_gives = { λ _ fault. fault ≡ faults.NoMem };

    fn from(_error: AllocFailed<T>) -> RestoreFault {
        RestoreFault::NoMem
    }
}

impl From<SnapshotError> for RestoreFault {
    ghost from_gives = { λ error fault. fault ≡ fault_of_reading error };

    fn from(error: SnapshotError) -> RestoreFault {
        match error {
            SnapshotError::NoMem => RestoreFault::NoMem,
            SnapshotError::Failed => RestoreFault::Unreadable,
            SnapshotError::NotADirectory => RestoreFault::NotADirectory,
        }
    }
}
