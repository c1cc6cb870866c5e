//! The files of a spool.
use crate::place::look_at;
use crate::temporary::clear;
use std::alloc::Global;
use std::fs::{self, DirBuilder, File, OpenOptions, TryLockError};
use std::io::{self, ErrorKind, Read, Seek, SeekFrom, Write};
use std::os::unix::fs::{DirBuilderExt, FileExt, OpenOptionsExt};
use std::thread;
use std::time::{Duration, Instant};

/// The first look.
pub(crate) const FIRST: &str = "first";

/// The observations since.
pub(crate) const LINES: &str = "lines";

/// The contents of files.
pub(crate) const CONTENTS: &str = "contents";

/// What is locked.
pub(crate) const LOCK: &str = "lock";

/// How long a spool is waited for that somebody else has, in milliseconds.
const WAIT: u64 = 1_000;

/// After how many milliseconds it is tried again.
const PAUSE: u64 = 5;

/// Makes a directory into which only its owner can look.
pub(crate) fn make_dir(rt: &HostRuntime, name: &str) -> io::Result<()> {
    let mut builder = DirBuilder::new();
    builder.mode(0o700);
    builder.create(rt, name)
}

/// Makes such a directory, if nothing is there, and returns whether it is new.
pub(crate) fn make_dir_if_missing(rt: &HostRuntime, name: &str) -> io::Result<bool> {
    match look_at(rt, name)? {
        Some(there) if there.is_dir() => Ok(false),
        _ => {
            make_dir(rt, name)?;
            Ok(true)
        }
    }
}

/// Opens a file to be written.
fn open_to_write(rt: &HostRuntime, name: &str) -> io::Result<File> {
    let mut options = OpenOptions::new();
    options.write(true);
    options.open(rt, name)
}

/// Writes a new file, which only its owner can read, and syncs it.
fn write_new(rt: &HostRuntime, name: &str, text: &[u8]) -> io::Result<()> {
    let mut options = OpenOptions::new();
    options.write(true).create_new(true).mode(0o600);
    let mut file = options.open(rt, name)?;
    file.write_all(text)?;
    file.sync_all()
}

/// Writes a file, which only its owner can read, in place of what a stopped run left at its name, and
/// returns when it is on the disk. If that fails, it is removed, if that is possible.
pub(crate) fn write_anew(rt: &HostRuntime, name: &str, text: &[u8]) -> io::Result<()> {
    clear(rt, name)?;
    match write_new(rt, name, text) {
        Ok(()) => Ok(()),
        Err(error) => {
            // The first error says what failed.
            clear(rt, name).unwrap_or(());
            Err(error)
        }
    }
}

/// Reads a file from a byte on, or returns `None` if it has fewer bytes.
pub(crate) fn read_from(
    rt: &HostRuntime,
    alloc: Global,
    name: &str,
    from: u64,
) -> io::Result<Option<Vec<u8>>> {
    let mut file = fs::open(rt, name)?;
    let length = file.metadata()?.len();
    if length < from {
        return Ok(None);
    }
    file.seek(SeekFrom::Start(from))?;
    let mut text = Vec::new(alloc);
    file.read_to_end(&mut text)?;
    Ok(Some(text))
}

/// Reads a file.
pub(crate) fn read_whole(rt: &HostRuntime, alloc: Global, name: &str) -> io::Result<Vec<u8>> {
    match read_from(rt, alloc, name, 0)? {
        Some(text) => Ok(text),
        None => Ok(Vec::new(alloc)),
    }
}

/// Reads a file, or returns `None` if there is none.
pub(crate) fn read_if_there(
    rt: &HostRuntime,
    alloc: Global,
    name: &str,
) -> io::Result<Option<Vec<u8>>> {
    match read_whole(rt, alloc, name) {
        Ok(text) => Ok(Some(text)),
        Err(error) if error.kind() == ErrorKind::NotFound => Ok(None),
        Err(error) => Err(error),
    }
}

/// Reads a file, which is empty if there is none.
pub(crate) fn read_or_empty(rt: &HostRuntime, alloc: Global, name: &str) -> io::Result<Vec<u8>> {
    match read_if_there(rt, alloc, name)? {
        Some(text) => Ok(text),
        None => Ok(Vec::new(alloc)),
    }
}

/// Writes a text behind the end of a file, and syncs it.
fn write_at_end(file: &File, end: u64, text: &[u8]) -> io::Result<()> {
    file.write_all_at(text, end)?;
    file.sync_all()
}

/// Writes a text in place of what a file has from a byte on, and returns when it is on the disk. If
/// that fails, what was written is cut off again, if that is possible.
pub(crate) fn write_from(rt: &HostRuntime, name: &str, at: u64, text: &[u8]) -> io::Result<()> {
    let file = open_to_write(rt, name)?;
    let length = file.metadata()?.len();
    let end = length.min(at);
    if length > end {
        file.set_len(end)?;
    }
    match write_at_end(&file, end, text) {
        Ok(()) => Ok(()),
        Err(error) => {
            // The first error says what failed.
            file.set_len(end).unwrap_or(());
            Err(error)
        }
    }
}

/// How a spool is locked.
#[derive(Clone, Copy, Debug, Drop, PartialEq, Eq)]
pub(crate) enum LockKind {
    /// Nobody else has it.
    Alone,
    /// Others only read it, too.
    Shared,
}

impl LockKind {
    /// Opens the file that is locked. On a disk that is mounted read-only it can be locked for
    /// readers.
    fn open(self, rt: &HostRuntime, name: &str) -> io::Result<File> {
        match self {
            LockKind::Alone => open_to_write(rt, name),
            LockKind::Shared => fs::open(rt, name),
        }
    }

    /// Locks an open file, if nobody has locked it otherwise.
    fn try_on(self, file: &File) -> Result<(), TryLockError> {
        match self {
            LockKind::Alone => file.try_lock(),
            LockKind::Shared => file.try_lock_shared(),
        }
    }
}

/// Opens a file and locks it, until it is closed. If somebody else has locked it, that is waited
/// for.
///
/// # Errors
///
/// `WouldBlock` if somebody else has locked it for a second.
pub(crate) fn lock(rt: &HostRuntime, name: &str, kind: LockKind) -> io::Result<File> {
    let file = kind.open(rt, name)?;
    let began = Instant::now(rt)?;
    for _ in 0..u64::MAX {
        match kind.try_on(&file) {
            Ok(()) => return Ok(file),
            Err(TryLockError::Error(error)) => return Err(error),
            Err(TryLockError::WouldBlock) => {
                if began.elapsed(rt)? >= Duration::from_millis(WAIT) {
                    return Err(io::Error::from(ErrorKind::WouldBlock));
                }
                thread::sleep(rt, Duration::from_millis(PAUSE));
            }
        }
    }
    Err(io::Error::from(ErrorKind::WouldBlock))
}
