//! Spools in a directory of the file system, which are only read.
ghost use Rattle.std.specs.Prelude.{None};

use crate::errors::spool_result;
use crate::place::{name_in, opened};
use crate::shelf::Shelf;
use crate::spool_files::{
    FIRST, LINES, LOCK, LockKind, lock, read_if_there, read_or_empty, read_whole,
};
use casebook_case::SpoolSource;
use casebook_observe::SpoolError;
use casebook_spool::Digest;
use retro_path::{Bytes, NoMem};
use std::alloc::Global;
use std::fs::File;
use std::io;

/// A spool in a directory of the file system, which is only read: what its files `first` and
/// `lines` were at one moment, and the contents, which never change.
#[derive(Drop)]
pub struct DiskSource<'a> {
    rt: &'a HostRuntime,
    /// The directory.
    root: File,
    /// What the file `first` was.
    first: Vec<u8>,
    /// What the file `lines` was.
    lines: Vec<u8>,
}

/// Returns a copy of a file.
fn copy_of(alloc: Global, text: &[u8]) -> Result<Vec<u8>, SpoolError> {
    match Vec::from_slice(alloc, text) {
        Ok(copy) => Ok(copy),
        Err(NoMem) => Err(SpoolError::NoMem),
    }
}

impl<'a> DiskSource<'a> {
    /// Opens a spool, and reads its files `first`, which is empty if there is none, and `lines`.
    /// Nobody writes to it meanwhile; if somebody else has it, that is waited for. Afterwards
    /// others can have it again. Nothing is written, so its disk can be mounted read-only.
    ///
    /// # Errors
    ///
    /// `NotFound` if there is no spool, `WouldBlock` if somebody else has it for a second, and what
    /// the system refuses.
    pub fn open(rt: &'a HostRuntime, name: &str) -> io::Result<DiskSource<'a>> {
        let alloc = rt.alloc();
        let root = opened(rt, alloc, name)?;
        let lock_name = name_in(alloc, &root, LOCK)?;
        let held = lock(rt, lock_name.as_str(), LockKind::Shared)?;
        let first = read_or_empty(rt, alloc, name_in(alloc, &root, FIRST)?.as_str())?;
        let lines = read_whole(rt, alloc, name_in(alloc, &root, LINES)?.as_str())?;
        drop(held);
        Ok(DiskSource {
            rt,
            root,
            first,
            lines,
        })
    }

    /// Reads the content with a digest, if it is there.
    fn read_content(&self, alloc: Global, digest: &Digest) -> io::Result<Option<Bytes>> {
        let shelf = Shelf::of(alloc, &self.root, digest)?;
        Ok(read_if_there(self.rt, alloc, shelf.file.as_str())?.map(Bytes::of))
    }
}

impl SpoolSource for DiskSource<'_> {
    // Nothing is said of what a disk holds.
    ghost holds = { λ _. None };

    fn first(&self, alloc: Global) -> Result<Vec<u8>, SpoolError> {
        copy_of(alloc, self.first.as_slice())
    }

    fn lines(&self, alloc: Global) -> Result<Vec<u8>, SpoolError> {
        copy_of(alloc, self.lines.as_slice())
    }

    fn content(&self, alloc: Global, digest: &Digest) -> Result<Option<Bytes>, SpoolError> {
        spool_result(self.read_content(alloc, digest))
    }
}
