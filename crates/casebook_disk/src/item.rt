//! What is at a name, for a snapshot: read without following links.
use crate::names::see_names;
use crate::place::{DiskPlace, look_at, name_in, open_in};
use crate::reading::{FILE_LIMIT, TRIES, attributes_of, read_unchanged};
use crate::scope::Scope;
use casebook_snapshot::{Item, Reason};
use std::alloc::Global;
use std::fs::{File, Metadata};
use std::io;
use std::os::unix::fs::FileTypeExt;

/// Reads a file at a name once, if it is unchanged before and after that.
fn read_once(
    rt: &HostRuntime,
    alloc: Global,
    name: &str,
    there: &Metadata,
) -> io::Result<Option<Item>> {
    match read_unchanged(rt, alloc, name, there)? {
        Some((bytes, _)) => Ok(Some(Item::File(bytes, attributes_of(there)))),
        None => Ok(None),
    }
}

/// Returns why what is at a name in an open directory is skipped, if it isn't a directory or a file
/// that is read, on these file systems.
fn reason_of(there: &Metadata, scope: Scope) -> Option<Reason> {
    let kind = there.file_type();
    if kind.is_symlink() {
        return Some(Reason::Link);
    }
    if kind.is_fifo() {
        return Some(Reason::Pipe);
    }
    if kind.is_socket() {
        return Some(Reason::Socket);
    }
    if !kind.is_dir() && !kind.is_file() {
        return Some(Reason::Device);
    }
    if !scope.has(there) {
        return Some(Reason::OtherFileSystem);
    }
    if kind.is_file() && there.len() > FILE_LIMIT {
        return Some(Reason::TooLarge);
    }
    None
}

/// Returns an open directory as an item, if the system doesn't refuse to list its names.
fn open_item(rt: &HostRuntime, alloc: Global, dir: &File) -> io::Result<Item> {
    see_names(rt, alloc, dir)?;
    Ok(Item::Dir(attributes_of(&dir.metadata()?)))
}

/// Returns the directory at a name in an open one, if it can be opened and listed.
fn directory_in(
    rt: &HostRuntime,
    alloc: Global,
    dir: &File,
    scope: Scope,
    name: &str,
) -> io::Result<Item> {
    match open_in(rt, alloc, dir, name, scope)? {
        DiskPlace::In(below) => open_item(rt, alloc, &below),
        DiskPlace::Missing => Ok(Item::Missing),
        DiskPlace::Blocked(_) => Ok(Item::Barred(Reason::Changing)),
    }
}

/// Returns what is at a name in an open directory, without following links. A file that changes
/// while it is read is read again. What isn't on these file systems isn't looked into.
pub(crate) fn item_in(
    rt: &HostRuntime,
    alloc: Global,
    dir: &File,
    scope: Scope,
    name: &str,
) -> io::Result<Item> {
    if name.is_empty() {
        return open_item(rt, alloc, dir);
    }
    let path = name_in(alloc, dir, name)?;
    for _ in 0..TRIES {
        let Some(there) = look_at(rt, path.as_str())? else {
            return Ok(Item::Missing);
        };
        if let Some(reason) = reason_of(&there, scope) {
            return Ok(Item::Barred(reason));
        }
        if there.is_dir() {
            return directory_in(rt, alloc, dir, scope, name);
        }
        if let Some(item) = read_once(rt, alloc, path.as_str(), &there)? {
            return Ok(item);
        }
    }
    Ok(Item::Barred(Reason::Changing))
}
