//! Temporary names, under which new nodes are made.
use crate::place::{DiskPlace, look_at, name_in, open_in};
use crate::scope::Scope;
use retro_path::{NAME_LIMIT, NoMem};
use std::alloc::Global;
use std::fs::{self, File};
use std::io::{self, ErrorKind};
use std::os::unix::fs::MetadataExt;

/// What a temporary name has before the name itself.
const BEFORE: &str = ".";

/// What a temporary name has after the name itself.
const AFTER: &str = ".casebook";

/// Returns whether a name is temporary.
pub(crate) fn is_temporary(name: &str) -> bool {
    name.starts_with(BEFORE) && name.ends_with(AFTER) && name.len() > AFTER.len()
}

/// Returns whether a name has a temporary name: one that isn't too long.
pub(crate) fn has_temporary(name: &str) -> bool {
    name.len() <= NAME_LIMIT - BEFORE.len() - AFTER.len()
}

/// Returns the temporary name of a name.
pub(crate) fn temporary(alloc: Global, name: &str) -> Result<String, NoMem> {
    format!(in alloc; "{BEFORE}{name}{AFTER}")
}

/// Returns whether a temporary name is free: nothing is there, or what a stopped run can have left
/// there: a file with one name, or an empty directory.
pub(crate) fn is_free(rt: &HostRuntime, temporary: &str) -> io::Result<bool> {
    let Some(there) = look_at(rt, temporary)? else {
        return Ok(true);
    };
    if there.is_dir() {
        return Ok(fs::read_dir(rt, temporary)?.next().is_none());
    }
    Ok(there.is_file() && there.nlink() == 1)
}

/// Removes what a stopped run left under a temporary name.
///
/// # Errors
///
/// `AlreadyExists` if something else is there.
pub(crate) fn clear(rt: &HostRuntime, temporary: &str) -> io::Result<()> {
    let Some(there) = look_at(rt, temporary)? else {
        return Ok(());
    };
    if there.is_dir() {
        return fs::remove_dir(rt, temporary);
    }
    if there.is_file() && there.nlink() == 1 {
        return fs::remove_file(rt, temporary);
    }
    Err(io::Error::from(ErrorKind::AlreadyExists))
}

/// Removes what stopped runs left under temporary names in a directory of an open one.
pub(crate) fn clear_all(rt: &HostRuntime, alloc: Global, dir: &File, name: &str) -> io::Result<()> {
    let DiskPlace::In(below) = open_in(rt, alloc, dir, name, Scope::of(dir)?)? else {
        return Ok(());
    };
    for entry in fs::read_dir(rt, name_in(alloc, &below, "")?.as_str())? {
        match entry {
            Ok(entry) if is_temporary(entry.file_name()) => {
                clear(rt, name_in(alloc, &below, entry.file_name())?.as_str())?;
            }
            // It isn't UTF-8, so it isn't temporary.
            _ => (),
        }
    }
    Ok(())
}
