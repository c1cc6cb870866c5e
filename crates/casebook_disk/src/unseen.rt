//! The watched folders in which it wasn't always seen what lines only read.
//!
//! A spool has them in its file `unseen`, a row for each: `/` for the root folder, and otherwise the
//! folder's row of `watch`. The file is there as soon as it has a row, and a row stays.
use crate::NoMem;
use crate::folder_list::folder_row;
use crate::place::name_in;
use crate::spool_files::{read_if_there, read_or_empty};
use casebook_host::unseen;
use casebook_rows::rows_of;
use retro_path::Path;
use std::alloc::Global;
use std::fs::File;
use std::io;

/// The file.
pub(crate) const UNSEEN: &str = "unseen";

/// Where Linux says what is mounted where, and how.
const MOUNTS: &str = "/proc/self/mounts";

/// Returns the rows of an open spool directory's file.
pub(crate) fn rows_at(rt: &HostRuntime, alloc: Global, root: &File) -> io::Result<Vec<u8>> {
    read_or_empty(rt, alloc, name_in(alloc, root, UNSEEN)?.as_str())
}

/// Returns those of the folders in which it isn't seen now what lines only read: all of them, if it
/// isn't known how they are mounted.
fn unseen_now<'a>(
    rt: &HostRuntime,
    alloc: Global,
    folders: &'a [Path],
) -> io::Result<Vec<&'a Path>> {
    match read_if_there(rt, alloc, MOUNTS)? {
        Some(table) => Ok(unseen(alloc, table.as_slice(), folders)?),
        None => Ok(folders.iter().collect(alloc)?),
    }
}

/// Returns the row of a folder.
fn unseen_row(alloc: Global, folder: &Path) -> Result<String, NoMem> {
    if folder.is_root() {
        return String::from_str(alloc, "/");
    }
    folder_row(alloc, folder)
}

/// Returns rows with those of the folders in which it isn't seen now what lines only read, or `None`
/// if they are there.
pub(crate) fn rows_with(
    rt: &HostRuntime,
    alloc: Global,
    rows: &[u8],
    folders: &[Path],
) -> io::Result<Option<Vec<u8>>> {
    let there = rows_of(alloc, rows)?;
    let mut text = Vec::from_slice(alloc, rows)?;
    for folder in unseen_now(rt, alloc, folders)? {
        let row = unseen_row(alloc, folder)?;
        let row = row.as_str().as_bytes();
        if !there.iter().any(|other| *other == row) {
            text.extend_from_slice(row)?;
            text.push(b'\n')?;
        }
    }
    Ok(if text.len() > rows.len() {
        Some(text)
    } else {
        None
    })
}
