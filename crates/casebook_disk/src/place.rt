//! Places: the directories that paths are in, opened without following links.
use crate::scope::Scope;
use casebook_folder::{NoMem, Obstacle};
use retro_path::Path;
use std::alloc::Global;
use std::fs::{self, File, Metadata};
use std::io::{self, ErrorKind};
use std::os::fd::AsRawFd;
use std::os::unix::fs::MetadataExt;

/// Where a path leads.
#[derive(Drop)]
pub(crate) enum DiskPlace {
    /// Its parent is this open directory.
    In(File),
    /// Its parent is missing, or is a file.
    Missing,
    /// Something above it is in the way.
    Blocked(Obstacle),
}

/// A directory that is open, and its path.
#[derive(Drop)]
pub(crate) struct OpenDir {
    /// The path.
    pub(crate) path: Path,
    /// The directory.
    pub(crate) dir: File,
}

/// Returns a name by which the system opens what is in an open directory.
pub(crate) fn name_in(alloc: Global, dir: &File, name: &str) -> Result<String, NoMem> {
    format!(in alloc; "/proc/self/fd/{}/{name}", dir.as_raw_fd())
}

/// Opens the folder with a name, and sees that what is in it can be opened too.
pub(crate) fn opened(rt: &HostRuntime, alloc: Global, name: &str) -> io::Result<File> {
    let with_slash = format!(in alloc; "{name}/")?;
    let root = fs::open(rt, with_slash.as_str())?;
    // Without `/proc` nothing in an open directory has a name.
    fs::symlink_metadata(rt, name_in(alloc, &root, ".")?.as_str())?;
    Ok(root)
}

/// Returns what is at a name without following a link, or `None` if nothing is there.
pub(crate) fn look_at(rt: &HostRuntime, name: &str) -> io::Result<Option<Metadata>> {
    match fs::symlink_metadata(rt, name) {
        Ok(there) => Ok(Some(there)),
        Err(error) if error.kind() == ErrorKind::NotFound => Ok(None),
        Err(error) => Err(error),
    }
}

/// Opens the directory at a name, if it is still the one that was seen there.
pub(crate) fn open_seen(
    rt: &HostRuntime,
    alloc: Global,
    name: &str,
    there: &Metadata,
) -> io::Result<Option<File>> {
    // The slash refuses a pipe or a device that is put there now, without opening it.
    let with_slash = format!(in alloc; "{name}/")?;
    let below = fs::open(rt, with_slash.as_str())?;
    let opened = below.metadata()?;
    if opened.dev() == there.dev() && opened.ino() == there.ino() {
        Ok(Some(below))
    } else {
        Ok(None)
    }
}

/// Opens a directory in an open one, if it is a directory of these file systems and no link.
pub(crate) fn open_in(
    rt: &HostRuntime,
    alloc: Global,
    dir: &File,
    name: &str,
    scope: Scope,
) -> io::Result<DiskPlace> {
    let path = name_in(alloc, dir, name)?;
    let Some(there) = look_at(rt, path.as_str())? else {
        return Ok(DiskPlace::Missing);
    };
    if there.is_file() {
        return Ok(DiskPlace::Missing);
    }
    if !there.is_dir() || !scope.has(&there) {
        return Ok(DiskPlace::Blocked(Obstacle::Above));
    }
    match open_seen(rt, alloc, path.as_str(), &there)? {
        Some(below) => Ok(DiskPlace::In(below)),
        None => Ok(DiskPlace::Blocked(Obstacle::Changing)),
    }
}

/// Returns where the directory at a path is, from an open directory, on these file systems.
pub(crate) fn dir_at(
    rt: &HostRuntime,
    alloc: Global,
    root: &File,
    path: &Path,
    scope: Scope,
) -> io::Result<DiskPlace> {
    dir_below(rt, alloc, root, path.as_str(), scope)
}

/// Returns where a directory is, from an open directory, on these file systems. The names that lead
/// there have slashes between them.
pub(crate) fn dir_below(
    rt: &HostRuntime,
    alloc: Global,
    root: &File,
    names: &str,
    scope: Scope,
) -> io::Result<DiskPlace> {
    let mut dir = root.try_clone()?;
    for name in names.split('/') {
        if !name.is_empty() {
            match open_in(rt, alloc, &dir, name, scope)? {
                DiskPlace::In(below) => dir = below,
                other => return Ok(other),
            }
        }
    }
    Ok(DiskPlace::In(dir))
}

/// Returns the last name of a path. The root has none.
pub(crate) fn last_name(alloc: Global, path: &Path) -> Result<String, NoMem> {
    match path.last(alloc)? {
        Some(name) => String::from_str(alloc, name.as_str()),
        None => Ok(String::new(alloc)),
    }
}

/// Returns where a path leads from an open directory on its file system, and its last name. The root
/// has none.
pub(crate) fn place_of(
    rt: &HostRuntime,
    alloc: Global,
    root: &File,
    path: &Path,
) -> io::Result<(DiskPlace, String)> {
    let place = dir_at(rt, alloc, root, &path.parent(alloc)?, Scope::of(root)?)?;
    Ok((place, last_name(alloc, path)?))
}
