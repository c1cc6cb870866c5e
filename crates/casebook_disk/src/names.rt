//! The names in a directory, UTF-8 or not.
use crate::place::name_in;
use std::alloc::Global;
use std::fs::{File, Files};
use std::io::{self, ErrorKind, Read};

/// How many bytes of names are read at once. The system refuses room for less than a name.
const PART: usize = 4096;

/// Returns the bytes of the names in an open directory, each ended by a NUL.
fn read_names(rt: &HostRuntime, alloc: Global, dir: &File) -> io::Result<Vec<u8>> {
    let mut names = rt.open_dir(name_in(alloc, dir, "")?.as_str())?;
    let mut bytes = Vec::new(alloc);
    let mut part = [0_u8; PART];
    for _ in 0..u64::MAX {
        let count = names.read(&mut part)?;
        if count == 0 {
            return Ok(bytes);
        }
        bytes.extend_from_slice(part.get(..count).unwrap_or(&[]))?;
    }
    Err(io::Error::from(ErrorKind::InvalidData))
}

/// Reads the first names in an open directory, to see that the system doesn't refuse that.
pub(crate) fn see_names(rt: &HostRuntime, alloc: Global, dir: &File) -> io::Result<()> {
    let mut names = rt.open_dir(name_in(alloc, dir, "")?.as_str())?;
    names.read(&mut [0_u8; PART])?;
    Ok(())
}

/// Returns the names in an open directory, each once, from the last to the first in order of their
/// bytes. A walk goes on with the last of them, so it goes through a folder in order of paths.
pub(crate) fn names_in(rt: &HostRuntime, alloc: Global, dir: &File) -> io::Result<Vec<Vec<u8>>> {
    let mut names = Vec::new(alloc);
    for name in read_names(rt, alloc, dir)?.split(|byte| *byte == 0) {
        if !name.is_empty() && name != b".".as_slice() && name != b"..".as_slice() {
            let mut copy = Vec::new(alloc);
            copy.extend_from_slice(name)?;
            names.push(copy)?;
        }
    }
    names.sort()?;
    names.dedup();
    names.reverse();
    Ok(names)
}
