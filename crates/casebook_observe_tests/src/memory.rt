//! Spools in memory.
ghost use Rattle.std.specs.Prelude.{None};

use casebook_observe::{Spool, SpoolError};
use casebook_spool::Digest;
use retro_path::NoMem;
use std::alloc::Global;
use std::cell::Cell;

/// The bytes of a file, under their digest.
#[derive(Drop)]
pub struct Kept {
    /// The digest.
    pub digest: Digest,
    /// The bytes.
    pub bytes: Vec<u8>,
}

/// How a call is to fail.
#[derive(Clone, Copy)]
pub struct Failing {
    /// Which call, counted from 1.
    pub call: u32,
    /// With which error.
    pub error: SpoolError,
    /// How many bytes of a text that is appended are there then.
    pub left: usize,
}

/// A spool in memory.
#[derive(Drop)]
pub struct MemorySpool {
    /// The file `first`.
    pub first: Vec<u8>,
    /// The file `listing`.
    pub listing: Vec<u8>,
    /// The file `lines`.
    pub lines: Vec<u8>,
    /// The contents of files, in the order in which they were kept.
    pub kept: Vec<Kept>,
    /// How many calls there were.
    pub calls: Cell<u32>,
    /// The call that fails.
    pub failing: Option<Failing>,
}

/// Returns a copy of bytes.
fn copy_of(alloc: Global, bytes: &[u8]) -> Result<Vec<u8>, NoMem> {
    let mut copy = Vec::new(alloc);
    copy.extend_from_slice(bytes)?;
    Ok(copy)
}

/// Returns copies of contents.
fn copies_of(alloc: Global, kept: &[Kept]) -> Result<Vec<Kept>, NoMem> {
    let mut copies = Vec::new(alloc);
    for content in kept {
        copies.push(Kept {
            digest: content.digest,
            bytes: copy_of(alloc, content.bytes.as_slice())?,
        })?;
    }
    Ok(copies)
}

/// Returns the result of a call, of what could only lack memory.
fn or_no_mem<T>(given: Result<T, NoMem>) -> Result<T, SpoolError> {
    match given {
        Ok(value) => Ok(value),
        Err(NoMem) => Err(SpoolError::NoMem),
    }
}

/// Returns whether two contents are the same.
fn is_same_content(one: &Kept, other: &Kept) -> bool {
    one.digest == other.digest && one.bytes.as_slice() == other.bytes.as_slice()
}

/// Returns whether contents begin with others.
pub fn begins_with(kept: &[Kept], front: &[Kept]) -> bool {
    if kept.len() < front.len() {
        return false;
    }
    for (one, other) in kept.iter().zip(front.iter()) {
        if !is_same_content(one, other) {
            return false;
        }
    }
    true
}

impl MemorySpool {
    /// Returns an empty spool, none of whose calls fails.
    pub fn new(alloc: Global) -> MemorySpool {
        MemorySpool {
            first: Vec::new(alloc),
            listing: Vec::new(alloc),
            lines: Vec::new(alloc),
            kept: Vec::new(alloc),
            calls: Cell::new(0),
            failing: None,
        }
    }

    /// Returns a copy, which had no calls.
    pub fn copy(&self, alloc: Global) -> Result<MemorySpool, NoMem> {
        Ok(MemorySpool {
            first: copy_of(alloc, self.first.as_slice())?,
            listing: copy_of(alloc, self.listing.as_slice())?,
            lines: copy_of(alloc, self.lines.as_slice())?,
            kept: copies_of(alloc, self.kept.as_slice())?,
            calls: Cell::new(0),
            failing: None,
        })
    }

    /// Returns whether another spool holds the same.
    pub fn is_same(&self, other: &MemorySpool) -> bool {
        self.first.as_slice() == other.first.as_slice()
            && self.listing.as_slice() == other.listing.as_slice()
            && self.lines.as_slice() == other.lines.as_slice()
            && self.kept.len() == other.kept.len()
            && begins_with(self.kept.as_slice(), other.kept.as_slice())
    }

    /// Counts a call, and returns how it is to fail, if it is.
    fn fault(&self) -> Option<Failing> {
        let calls = self.calls.get().saturating_add(1);
        self.calls.set(calls);
        match self.failing {
            Some(failing) if failing.call == calls => Some(failing),
            _ => None,
        }
    }

    /// Counts a call, and fails if this one is to.
    fn call(&self) -> Result<(), SpoolError> {
        match self.fault() {
            Some(failing) => Err(failing.error),
            None => Ok(()),
        }
    }

    /// Returns whether bytes are kept under a digest.
    fn is_kept(&self, digest: &Digest) -> bool {
        self.kept.iter().any(|kept| kept.digest == *digest)
    }

    /// Puts a text in place of what the file `lines` has from a byte on.
    fn put_lines(&mut self, at: usize, text: &[u8]) -> Result<(), SpoolError> {
        if at > self.lines.len() {
            return Err(SpoolError::Failed);
        }
        self.lines.truncate(at);
        or_no_mem(self.lines.extend_from_slice(text))
    }

    /// Returns what the file `lines` has from a byte on.
    fn lines_from(&self, alloc: Global, from: usize) -> Result<Option<Vec<u8>>, NoMem> {
        match self.lines.as_slice().split_at_checked(from) {
            Some((_, rest)) => Ok(Some(copy_of(alloc, rest)?)),
            None => Ok(None),
        }
    }

    /// Keeps bytes, if none are kept under their digest.
    fn put_content(&mut self, digest: &Digest, bytes: &[u8]) -> Result<(), NoMem> {
        if self.is_kept(digest) {
            return Ok(());
        }
        let alloc = *self.kept.allocator();
        let content = Kept {
            digest: *digest,
            bytes: copy_of(alloc, bytes)?,
        };
        self.kept.push(content)?;
        Ok(())
    }
}

/// Puts a text in the place of a file.
fn replace(file: &mut Vec<u8>, text: &[u8]) -> Result<(), NoMem> {
    file.truncate(0);
    file.extend_from_slice(text)
}

impl Spool for MemorySpool {
    // Nothing is said of what it holds.
    ghost holds = { λ _. None };

    fn first(&self, alloc: Global) -> Result<Vec<u8>, SpoolError> {
        self.call()?;
        or_no_mem(copy_of(alloc, self.first.as_slice()))
    }

    fn listing(&self, alloc: Global) -> Result<Vec<u8>, SpoolError> {
        self.call()?;
        or_no_mem(copy_of(alloc, self.listing.as_slice()))
    }

    fn lines(&self, alloc: Global, from: u64) -> Result<Option<Vec<u8>>, SpoolError> {
        self.call()?;
        match usize::try_from(from) {
            Ok(from) => or_no_mem(self.lines_from(alloc, from)),
            Err(_) => Ok(None),
        }
    }

    fn set_first(&mut self, text: &[u8]) -> Result<(), SpoolError> {
        self.call()?;
        or_no_mem(replace(&mut self.first, text))
    }

    fn keep(&mut self, digest: &Digest, bytes: &[u8]) -> Result<(), SpoolError> {
        self.call()?;
        or_no_mem(self.put_content(digest, bytes))
    }

    fn append(&mut self, at: u64, text: &[u8]) -> Result<(), SpoolError> {
        let fault = self.fault();
        let Ok(at) = usize::try_from(at) else {
            return Err(SpoolError::Failed);
        };
        match fault {
            Some(failing) => {
                let left = text.get(..failing.left).unwrap_or(text);
                self.put_lines(at, left)?;
                Err(failing.error)
            }
            None => self.put_lines(at, text),
        }
    }

    fn set_listing(&mut self, text: &[u8]) -> Result<(), SpoolError> {
        self.call()?;
        or_no_mem(replace(&mut self.listing, text))
    }
}
