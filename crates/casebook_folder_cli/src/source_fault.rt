//! Why there is no snapshot.
ghost use Rattle.std.specs.Prelude.{◌≡◌};
ghost use Rattle.casebook_folder_cli.specs.Taking.{fault_of_document, fault_of_listing};
ghost use Rattle.casebook_folder_cli.specs.Taking.{fault_of_stream, fault_of_tree};
ghost use Rattle.casebook_folder_cli.specs.declared.source_fault.SourceFault.TheVariants as faults;

use crate::NoMem;
use crate::file_fault::FileFault;
use casebook_snapshot::SnapshotError;
use casebook_snapshot_read::SnapshotFault;
use casebook_tar::TarError;
use casebook_tar_tree::TarTreeError;
use std::alloc::AllocFailed;

/// Why there is no snapshot of a folder or of what is in a file.
#[derive(Clone, Copy, Debug, Drop, PartialEq, Eq)]
pub enum SourceFault {
    /// Allocation failed.
    NoMem,
    /// The folder or the file couldn't be read.
    Unreadable,
    /// What is named as a folder isn't one, or a stream has no directory at its top.
    NotADirectory,
    /// The file holds something else.
    BadFile(FileFault),
}

impl From<NoMem> for SourceFault {
    ghost from_gives = { λ _ fault. fault ≡ faults.NoMem };

    fn from(_error: NoMem) -> SourceFault {
        SourceFault::NoMem
    }
}

impl<T: Drop> From<AllocFailed<T>> for SourceFault {
    ghost from_gives = { λ _ fault. fault ≡ faults.NoMem };

    fn from(_error: AllocFailed<T>) -> SourceFault {
        SourceFault::NoMem
    }
}

impl From<SnapshotError> for SourceFault {
    ghost from_gives = { λ error fault. fault ≡ fault_of_listing error };

    fn from(error: SnapshotError) -> SourceFault {
        match error {
            SnapshotError::NoMem => SourceFault::NoMem,
            SnapshotError::Failed => SourceFault::Unreadable,
            SnapshotError::NotADirectory => SourceFault::NotADirectory,
        }
    }
}

impl From<TarError> for SourceFault {
    ghost from_gives = { λ error fault. fault ≡ fault_of_stream error };

    fn from(error: TarError) -> SourceFault {
        match error {
            TarError::NoMem => SourceFault::NoMem,
            TarError::Fault(fault) => SourceFault::BadFile(FileFault::Stream(fault)),
        }
    }
}

impl From<TarTreeError> for SourceFault {
    ghost from_gives = { λ error fault. fault ≡ fault_of_tree error };

    fn from(error: TarTreeError) -> SourceFault {
        match error {
            TarTreeError::NoMem => SourceFault::NoMem,
            TarTreeError::Fault(fault) => SourceFault::BadFile(FileFault::Tree(fault)),
        }
    }
}

impl From<SnapshotFault> for SourceFault {
    ghost from_gives = { λ fault result. result ≡ fault_of_document fault };

    fn from(fault: SnapshotFault) -> SourceFault {
        match fault {
            SnapshotFault::NoMem => SourceFault::NoMem,
            other => SourceFault::BadFile(FileFault::Document(other)),
        }
    }
}
