//! Errors of the system.
ghost use Rattle.std.specs.Prelude.{IsTrue};
ghost use Rattle.casebook_folder.specs.Errors.{is_of_look};
ghost use Rattle.casebook_snapshot.specs.Errors.{is_of_listing};

use casebook_folder::FolderError;
use casebook_observe::{SpoolError, WatchError};
use casebook_snapshot::SnapshotError;
use std::io::{self, ErrorKind};

/// Returns the error of a folder that an error of the system is.
pub(crate) fn folder_error(error: io::Error) -> FolderError
    ensures { IsTrue (is_of_look result) }
{
    match error.kind() {
        ErrorKind::OutOfMemory => FolderError::NoMem,
        _ => FolderError::Failed,
    }
}

/// Returns the error of a listing that an error of the system is.
pub(crate) fn snapshot_error(error: io::Error) -> SnapshotError
    ensures { IsTrue (is_of_listing result) }
{
    match error.kind() {
        ErrorKind::OutOfMemory => SnapshotError::NoMem,
        _ => SnapshotError::Failed,
    }
}

/// Returns the error of watched folders that an error of the system is. A look that takes too long
/// is `TimedOut`.
pub(crate) fn watch_error(error: io::Error) -> WatchError {
    match error.kind() {
        ErrorKind::OutOfMemory => WatchError::NoMem,
        ErrorKind::TimedOut => WatchError::TooSlow,
        _ => WatchError::Failed,
    }
}

/// Returns the error of a spool that an error of the system is.
fn spool_error(error: io::Error) -> SpoolError {
    match error.kind() {
        ErrorKind::OutOfMemory => SpoolError::NoMem,
        _ => SpoolError::Failed,
    }
}

/// Returns the result of a call on a spool, of what calls of the system gave.
pub(crate) fn spool_result<T>(given: io::Result<T>) -> Result<T, SpoolError> {
    match given {
        Ok(value) => Ok(value),
        Err(error) => Err(spool_error(error)),
    }
}
