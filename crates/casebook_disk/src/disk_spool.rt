//! Spools in a directory of the file system.
ghost use Rattle.std.specs.Prelude.{None};

use crate::errors::spool_result;
use crate::folder_list::{folders_in, folders_text};
use crate::new_file::{directory_of, write_new_file};
use crate::place::{look_at, name_in, opened};
use crate::shelf::Shelf;
use crate::spool_files::{
    CONTENTS, FIRST, LINES, LOCK, LockKind, lock, make_dir, make_dir_if_missing, read_from,
    read_or_empty, read_whole, write_anew, write_from,
};
use crate::temporary::temporary;
use crate::unseen::{UNSEEN, rows_at, rows_with};
use casebook_observe::{Spool, SpoolError};
use casebook_spool::Digest;
use retro_path::{NoMem, Path};
use std::alloc::Global;
use std::fs::{self, File};
use std::io::{self, ErrorKind};

/// The folders that are watched.
const WATCH: &str = "watch";

/// What can be made of the first look and of the observations.
const LISTING: &str = "listing";

/// A spool in a directory of the file system. Nobody else has it as long as this is open.
#[derive(Drop)]
pub struct DiskSpool<'a> {
    rt: &'a HostRuntime,
    alloc: Global,
    /// The directory.
    root: File,
    /// The locked file.
    lock: File,
}

/// Returns an empty spool's files in an open directory: `watch` comes last, so a spool that has it
/// is whole.
fn fill(rt: &HostRuntime, alloc: Global, root: &File, watch: &[u8]) -> io::Result<()> {
    write_new_file(rt, alloc, name_in(alloc, root, LOCK)?.as_str(), &[])?;
    write_new_file(rt, alloc, name_in(alloc, root, LINES)?.as_str(), &[])?;
    make_dir(rt, name_in(alloc, root, CONTENTS)?.as_str())?;
    write_new_file(rt, alloc, name_in(alloc, root, WATCH)?.as_str(), watch)
}

/// Returns the folders that the file with a name lists.
fn folders_at(rt: &HostRuntime, alloc: Global, name: &str) -> io::Result<Vec<Path>> {
    let text = read_whole(rt, alloc, name)?;
    match folders_in(alloc, text.as_slice())? {
        Some(folders) => Ok(folders),
        None => Err(io::Error::from(ErrorKind::InvalidData)),
    }
}

/// Returns the folders that the spool with a name watches. They stay the same as long as there is
/// the spool, so nobody waits.
///
/// # Errors
///
/// `NotFound` if there is no spool, `InvalidData` if a row of its list isn't a path, and what the
/// system refuses.
pub fn watched_folders(rt: &HostRuntime, name: &str) -> io::Result<Vec<Path>> {
    let alloc = rt.alloc();
    let root = opened(rt, alloc, name)?;
    folders_at(rt, alloc, name_in(alloc, &root, WATCH)?.as_str())
}

/// Returns the rows of the folders that the spool with a name watches, and in which it wasn't always
/// seen what lines only read.
///
/// # Errors
///
/// `NotFound` if there is no spool, and what the system refuses.
pub fn unseen_rows(rt: &HostRuntime, name: &str) -> io::Result<Vec<u8>> {
    let alloc = rt.alloc();
    let root = opened(rt, alloc, name)?;
    rows_at(rt, alloc, &root)
}

impl<'a> DiskSpool<'a> {
    /// Makes a spool for some folders, and opens it.
    ///
    /// # Errors
    ///
    /// `AlreadyExists` if something is there, and what the system refuses. Then a part of the spool
    /// can be there.
    pub fn create(rt: &'a HostRuntime, name: &str, folders: &[Path]) -> io::Result<DiskSpool<'a>> {
        let alloc = rt.alloc();
        let name = name.trim_end_matches('/');
        make_dir(rt, name)?;
        let root = opened(rt, alloc, name)?;
        let watch = folders_text(alloc, folders)?;
        fill(rt, alloc, &root, watch.as_str().as_bytes())?;
        let above = format!(in alloc; "{}/", directory_of(name))?;
        fs::open(rt, above.as_str())?.sync_all()?;
        DiskSpool::in_dir(rt, alloc, root)
    }

    /// Opens a spool. If somebody else has it, that is waited for.
    ///
    /// # Errors
    ///
    /// `NotFound` if there is no spool, `WouldBlock` if somebody else has it for a second, and what
    /// the system refuses.
    pub fn open(rt: &'a HostRuntime, name: &str) -> io::Result<DiskSpool<'a>> {
        let alloc = rt.alloc();
        let root = opened(rt, alloc, name)?;
        DiskSpool::in_dir(rt, alloc, root)
    }

    /// Opens the spool in an open directory.
    fn in_dir(rt: &'a HostRuntime, alloc: Global, root: File) -> io::Result<DiskSpool<'a>> {
        let lock_name = name_in(alloc, &root, LOCK)?;
        Ok(DiskSpool {
            rt,
            alloc,
            lock: lock(rt, lock_name.as_str(), LockKind::Alone)?,
            root,
        })
    }

    /// Returns a name by which the system opens a file of the spool.
    fn at(&self, name: &str) -> Result<String, NoMem> {
        name_in(self.alloc, &self.root, name)
    }

    /// Returns a name by which the system opens what a file of the spool is written to first.
    fn beside(&self, name: &str) -> Result<String, NoMem> {
        self.at(temporary(self.alloc, name)?.as_str())
    }

    /// Returns the folders that are watched.
    ///
    /// # Errors
    ///
    /// `InvalidData` if a row of the file isn't a path, and what the system refuses.
    pub fn folders(&self, alloc: Global) -> io::Result<Vec<Path>> {
        folders_at(self.rt, alloc, self.at(WATCH)?.as_str())
    }

    /// Notes in which of the folders it isn't seen now what lines only read.
    ///
    /// # Errors
    ///
    /// What the system refuses. Then what was noted before still is.
    pub fn note_unseen(&self, folders: &[Path]) -> io::Result<()> {
        let rows = rows_at(self.rt, self.alloc, &self.root)?;
        match rows_with(self.rt, self.alloc, rows.as_slice(), folders)? {
            Some(rows) => self.put_beside(UNSEEN, rows.as_slice()),
            None => Ok(()),
        }
    }

    /// Writes the file `first`, if there is none. If that is interrupted, there still is none.
    fn put_first(&self, text: &[u8]) -> io::Result<()> {
        let first = self.at(FIRST)?;
        if look_at(self.rt, first.as_str())?.is_some() {
            return Err(io::Error::from(ErrorKind::AlreadyExists));
        }
        self.put_beside(FIRST, text)
    }

    /// Syncs a directory.
    fn sync_dir(&self, name: &str) -> io::Result<()> {
        fs::open(self.rt, format!(in self.alloc; "{name}/")?.as_str())?.sync_all()
    }

    /// Keeps the bytes of a file under their digest.
    fn put_content(&self, digest: &Digest, bytes: &[u8]) -> io::Result<()> {
        let shelf = Shelf::of(self.alloc, &self.root, digest)?;
        if make_dir_if_missing(self.rt, shelf.dir.as_str())? {
            self.sync_dir(self.at(CONTENTS)?.as_str())?;
        }
        let is_kept = match look_at(self.rt, shelf.file.as_str())? {
            Some(there) => there.is_file() && there.len() == bytes.len() as u64,
            None => false,
        };
        if !is_kept {
            write_anew(self.rt, shelf.beside.as_str(), bytes)?;
            fs::rename(self.rt, shelf.beside.as_str(), shelf.file.as_str())?;
        }
        // A stopped run can have left the name before it was on the disk.
        self.sync_dir(shelf.dir.as_str())
    }

    /// Writes a file beside, and then in its place.
    fn put_beside(&self, name: &str, text: &[u8]) -> io::Result<()> {
        let beside = self.beside(name)?;
        write_anew(self.rt, beside.as_str(), text)?;
        fs::rename(self.rt, beside.as_str(), self.at(name)?.as_str())?;
        self.root.sync_all()
    }

    /// Reads a file of the spool.
    fn read(&self, alloc: Global, name: &str) -> io::Result<Vec<u8>> {
        read_whole(self.rt, alloc, self.at(name)?.as_str())
    }

    /// Reads the file `listing`, which is empty if there is none.
    fn read_listing(&self, alloc: Global) -> io::Result<Vec<u8>> {
        read_or_empty(self.rt, alloc, self.at(LISTING)?.as_str())
    }

    /// Reads the file `lines` from a byte on.
    fn read_lines(&self, alloc: Global, from: u64) -> io::Result<Option<Vec<u8>>> {
        read_from(self.rt, alloc, self.at(LINES)?.as_str(), from)
    }

    /// Writes a text in place of what the file `lines` has from a byte on.
    fn put_lines(&self, at: u64, text: &[u8]) -> io::Result<()> {
        write_from(self.rt, self.at(LINES)?.as_str(), at, text)
    }
}

impl Spool for DiskSpool<'_> {
    // Nothing is said of what a disk holds.
    ghost holds = { λ _. None };

    fn first(&self, alloc: Global) -> Result<Vec<u8>, SpoolError> {
        spool_result(self.read(alloc, FIRST))
    }

    fn listing(&self, alloc: Global) -> Result<Vec<u8>, SpoolError> {
        spool_result(self.read_listing(alloc))
    }

    fn lines(&self, alloc: Global, from: u64) -> Result<Option<Vec<u8>>, SpoolError> {
        spool_result(self.read_lines(alloc, from))
    }

    fn set_first(&mut self, text: &[u8]) -> Result<(), SpoolError> {
        spool_result(self.put_first(text))
    }

    fn keep(&mut self, digest: &Digest, bytes: &[u8]) -> Result<(), SpoolError> {
        spool_result(self.put_content(digest, bytes))
    }

    fn append(&mut self, at: u64, text: &[u8]) -> Result<(), SpoolError> {
        spool_result(self.put_lines(at, text))
    }

    fn set_listing(&mut self, text: &[u8]) -> Result<(), SpoolError> {
        spool_result(self.put_beside(LISTING, text))
    }
}
