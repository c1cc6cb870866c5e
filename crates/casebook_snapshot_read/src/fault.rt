//! Faults of documents.
ghost use Rattle.std.specs.Prelude.{◌≡◌};
ghost use Rattle.casebook_snapshot_read.specs.Reads.{fault_of_read};
ghost use Rattle.casebook_snapshot_read.specs.declared.fault.SnapshotFault.TheVariants as faults;

use crate::NoMem;
use retro_value::ReadError;
use std::alloc::AllocFailed;
use thiserror::Error;

/// A list of rows in a document.
#[derive(Clone, Copy, Debug, Drop, PartialEq, Eq, Error)]
pub enum Part {
    /// The directories and files.
    #[error("tree")]
    Tree,
    /// The modes and owners.
    #[error("attributes")]
    Attributes,
    /// What is skipped.
    #[error("skipped")]
    Skipped,
}

/// Why a text is no document of a snapshot, or why reading it failed.
#[derive(Clone, Copy, Debug, Drop, PartialEq, Eq, Error)]
pub enum SnapshotFault {
    /// Allocation failed.
    #[error("out of memory")]
    NoMem,
    /// The bytes aren't UTF-8, or the text isn't a JSON value.
    #[error("not a JSON value")]
    NotJson,
    /// The value isn't an object with exactly the keys of a snapshot, texts and lists where they
    /// belong, and `"snapshot": 1`.
    #[error("not a snapshot")]
    NotASnapshot,
    /// A row isn't one of its list.
    #[error("{part}, row {place}: not a row")]
    BadRow {
        /// The list that the row is in.
        part: Part,
        /// The row's place. The first is 1.
        place: usize,
    },
    /// The directories and files don't make a lawful tree.
    #[error("the tree isn't lawful")]
    LawlessTree,
    /// The attributes aren't those of a directory of the tree and of each path below it, or the
    /// tree holds something else besides the directories above that one.
    #[error("the attributes aren't those of the tree")]
    OtherPaths,
}

impl From<NoMem> for SnapshotFault {
    ghost from_gives = { λ _ fault. fault ≡ faults.NoMem };

    fn from(_error: NoMem) -> SnapshotFault {
        SnapshotFault::NoMem
    }
}

impl<T: Drop> From<AllocFailed<T>> for SnapshotFault {
    ghost from_gives = { λ _ fault. fault ≡ faults.NoMem };

    fn from(_error: AllocFailed<T>) -> SnapshotFault {
        SnapshotFault::NoMem
    }
}

impl From<ReadError> for SnapshotFault {
    ghost from_gives = { λ error fault. fault ≡ fault_of_read error };

    fn from(error: ReadError) -> SnapshotFault {
        match error {
            ReadError::NoMem => SnapshotFault::NoMem,
            ReadError::NotJson => SnapshotFault::NotJson,
        }
    }
}
