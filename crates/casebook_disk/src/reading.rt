//! What is at a name, read without following links.
use crate::place::{look_at, name_in};
use crate::temporary::{has_temporary, is_free, is_temporary, temporary};
use casebook_folder::{Attributes, Found, Obstacle};
use retro_path::Bytes;
use std::alloc::Global;
use std::fs::{self, File, Metadata};
use std::io::{self, Read};
use std::os::unix::fs::{FileTypeExt, MetadataExt};

/// The size of the largest file that is read, in bytes.
pub(crate) const FILE_LIMIT: u64 = 1_048_576;

/// How often a file that changes while it is read is read at most.
pub(crate) const TRIES: u32 = 3;

/// Returns the mode and owner of a file or directory.
pub(crate) fn attributes_of(there: &Metadata) -> Attributes {
    Attributes {
        mode: there.mode() & 0o7777,
        uid: there.uid(),
        gid: there.gid(),
    }
}

/// Returns whether both are of the same file, unchanged.
pub(crate) fn is_unchanged(a: &Metadata, b: &Metadata) -> bool {
    a.dev() == b.dev()
        && a.ino() == b.ino()
        && a.len() == b.len()
        && a.mtime() == b.mtime()
        && a.mtime_nsec() == b.mtime_nsec()
        && a.ctime() == b.ctime()
        && a.ctime_nsec() == b.ctime_nsec()
}

/// Reads a file at a name once, if it is unchanged before and after that, and returns what the
/// system says of it after that. Never reads more than its size, and one byte.
pub(crate) fn read_unchanged(
    rt: &HostRuntime,
    alloc: Global,
    name: &str,
    there: &Metadata,
) -> io::Result<Option<(Bytes, Metadata)>> {
    let file = fs::open(rt, name)?;
    if !is_unchanged(there, &file.metadata()?) {
        return Ok(None);
    }
    let most = there.len().saturating_add(1);
    let mut bytes = Vec::with_capacity(alloc, most as usize)?;
    let mut part = file.take(most);
    part.read_to_end(&mut bytes)?;
    let after = part.into_inner().metadata()?;
    if bytes.len() as u64 != there.len() || !is_unchanged(there, &after) {
        return Ok(None);
    }
    Ok(Some((Bytes::of(bytes), after)))
}

/// Reads the file at a name. If it changes meanwhile, it is blocked.
fn read_file(rt: &HostRuntime, alloc: Global, name: &str, there: &Metadata) -> io::Result<Found> {
    if there.nlink() > 1 {
        return Ok(Found::Blocked(Obstacle::SeveralNames));
    }
    if there.len() > FILE_LIMIT {
        return Ok(Found::Blocked(Obstacle::TooLarge));
    }
    let mut file = fs::open(rt, name)?;
    if !is_unchanged(there, &file.metadata()?) {
        return Ok(Found::Blocked(Obstacle::Changing));
    }
    let mut bytes = Vec::new(alloc);
    file.read_to_end(&mut bytes)?;
    if !is_unchanged(there, &file.metadata()?) {
        return Ok(Found::Blocked(Obstacle::Changing));
    }
    Ok(Found::File(Bytes::of(bytes), attributes_of(there)))
}

/// Returns what is at a name in an open directory. A name without letters is the directory itself.
pub(crate) fn find_in(
    rt: &HostRuntime,
    alloc: Global,
    dir: &File,
    name: &str,
) -> io::Result<Found> {
    if name.is_empty() {
        return Ok(Found::Dir(attributes_of(&dir.metadata()?)));
    }
    if is_temporary(name) {
        return Ok(Found::Blocked(Obstacle::TemporaryName));
    }
    if !has_temporary(name) {
        return Ok(Found::Blocked(Obstacle::NameTooLong));
    }
    let temporary = temporary(alloc, name)?;
    if !is_free(rt, name_in(alloc, dir, temporary.as_str())?.as_str())? {
        return Ok(Found::Blocked(Obstacle::NameTaken));
    }
    let path = name_in(alloc, dir, name)?;
    let Some(there) = look_at(rt, path.as_str())? else {
        return Ok(Found::Missing);
    };
    if there.is_symlink() {
        return Ok(Found::Blocked(Obstacle::Link));
    }
    if there.is_dir() {
        if there.dev() != dir.metadata()?.dev() {
            return Ok(Found::Blocked(Obstacle::Mount));
        }
        return Ok(Found::Dir(attributes_of(&there)));
    }
    if !there.is_file() {
        return Ok(Found::Blocked(Obstacle::Special));
    }
    read_file(rt, alloc, path.as_str(), &there)
}
