//! Files that are written once.
use std::alloc::Global;
use std::fs::{self, OpenOptions};
use std::io::{self, Write};
use std::os::unix::fs::OpenOptionsExt;

/// Returns the name of the directory that a file is in.
pub(crate) fn directory_of(name: &str) -> &str {
    match name.rsplit_once('/') {
        Some(("", _)) => "/",
        Some((directory, _)) => directory,
        None => ".",
    }
}

/// Writes a new file, which only its owner can read, and returns when it and its name are on the
/// disk. If that is interrupted, a part of the file can be there.
///
/// # Errors
///
/// `AlreadyExists` if there is a file with the name, and what the system refuses.
pub fn write_new_file(rt: &HostRuntime, alloc: Global, name: &str, text: &[u8]) -> io::Result<()> {
    let mut options = OpenOptions::new();
    options.write(true).create_new(true).mode(0o600);
    let mut file = options.open(rt, name)?;
    file.write_all(text)?;
    file.sync_all()?;
    let directory = format!(in alloc; "{}/", directory_of(name))?;
    fs::open(rt, directory.as_str())?.sync_all()
}
