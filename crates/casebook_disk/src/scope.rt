//! The file systems of a folder.
use std::fs::{File, Metadata};
use std::io;
use std::os::unix::fs::MetadataExt;

/// The file systems on which a folder is looked at.
#[derive(Clone, Copy, Debug, PartialEq, Eq)]
pub(crate) enum Scope {
    /// The one with this number.
    Device(u64),
    /// All that are mounted in it.
    All,
}

impl Scope {
    /// Returns the file system of an open directory.
    pub(crate) fn of(dir: &File) -> io::Result<Scope> {
        Ok(Scope::Device(dir.metadata()?.dev()))
    }

    /// Returns whether a file or a directory is on one of these file systems.
    pub(crate) fn has(self, there: &Metadata) -> bool {
        match self {
            Scope::Device(device) => there.dev() == device,
            Scope::All => true,
        }
    }
}
