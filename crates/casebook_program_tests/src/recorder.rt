//! Spools by their names, and rows of what is asked of the recorder.
//!
//! The record that is sent is one, unless a row says something else. `spool` watches an empty
//! folder. The others fail: each name says how.
ghost use Rattle.std.specs.Prelude.{None};

use crate::cases::{NamedSource, source_of};
use crate::memory::Memory;
use crate::status::{folders_of, unseen_of};
use casebook_observe::{Found, Spool, SpoolError, WatchError, Watched};
use casebook_recorder_cli::{OpenError, OpenSpool, Spools};
use casebook_spool::{Digest, Looked, Unkept};
use casebook_watch::Sights;
use retro_path::{NoMem, Path};
use std::alloc::Global;

/// A record: a session with one line ends.
pub(crate) const RECORD: &[u8] = b"exit\x00s\x005\x000\x00/\x001\x000\x00";

/// The spool with a name.
#[derive(Drop)]
pub(crate) struct NamedSpool {
    /// What the file `first` has.
    first: &'static str,
    /// What the file `lines` has.
    lines: &'static str,
    /// Whether nothing can be appended.
    is_full: bool,
}

/// The folders that a spool watches. They are empty.
#[derive(Drop)]
pub(crate) struct NamedFolders {
    /// Why they can't be looked at.
    fault: Option<WatchError>,
}

/// Returns the bytes of a file.
fn bytes_of(alloc: Global, text: &str) -> Result<Vec<u8>, SpoolError> {
    match Vec::from_slice(alloc, text.as_bytes()) {
        Ok(bytes) => Ok(bytes),
        Err(NoMem) => Err(SpoolError::NoMem),
    }
}

impl Spool for NamedSpool {
    // Nothing is said of what it holds.
    ghost holds = { λ _. None };

    fn first(&self, alloc: Global) -> Result<Vec<u8>, SpoolError> {
        bytes_of(alloc, self.first)
    }

    fn listing(&self, alloc: Global) -> Result<Vec<u8>, SpoolError> {
        Ok(Vec::new(alloc))
    }

    fn lines(&self, alloc: Global, _from: u64) -> Result<Option<Vec<u8>>, SpoolError> {
        Ok(Some(bytes_of(alloc, self.lines)?))
    }

    fn set_first(&mut self, _text: &[u8]) -> Result<(), SpoolError> {
        Ok(())
    }

    fn keep(&mut self, _digest: &Digest, _bytes: &[u8]) -> Result<(), SpoolError> {
        Ok(())
    }

    fn append(&mut self, _at: u64, _text: &[u8]) -> Result<(), SpoolError> {
        if self.is_full {
            return Err(SpoolError::Failed);
        }
        Ok(())
    }

    fn set_listing(&mut self, _text: &[u8]) -> Result<(), SpoolError> {
        Ok(())
    }
}

impl Watched for NamedFolders {
    // Nothing is said of what they hold.
    ghost finds = { λ _. None };

    fn look(&mut self, alloc: Global, _before: &Sights) -> Result<Sights, WatchError> {
        match self.fault {
            Some(fault) => Err(fault),
            None => Ok(Sights::new(alloc)),
        }
    }

    fn read(&mut self, _alloc: Global, _path: &Path) -> Result<Found, WatchError> {
        Ok(Found::Unkept(Unkept::Changing))
    }

    fn looked(&mut self, alloc: Global) -> Result<Vec<Looked>, WatchError> {
        Ok(Vec::new(alloc))
    }
}

/// Returns what a name has in place of a spool with its folders.
pub(crate) fn fault_of(name: &str) -> Option<OpenError> {
    match name {
        "none" => Some(OpenError::Missing),
        "there" => Some(OpenError::Exists),
        "busy" => Some(OpenError::Busy),
        "damaged" => Some(OpenError::Damaged),
        "gone" => Some(OpenError::NoFolder),
        "locked" => Some(OpenError::Failed),
        _ => None,
    }
}

/// Returns the spool with a name.
fn spool_of(name: &str) -> Result<OpenSpool<NamedSpool, NamedFolders>, OpenError> {
    if let Some(fault) = fault_of(name) {
        return Err(fault);
    }
    let spool = NamedSpool {
        first: if name == "unread" {
            ""
        } else {
            "listing\t0\t0\n"
        },
        lines: if name == "torn" { "gone\n" } else { "" },
        is_full: name == "full",
    };
    let fault = match name {
        "slow" => Some(WatchError::TooSlow),
        "hidden" => Some(WatchError::Failed),
        _ => None,
    };
    Ok(OpenSpool {
        spool,
        watched: NamedFolders { fault },
    })
}

impl Spools for Memory {
    type Kept = NamedSpool;

    type Seen = NamedFolders;

    type Source = NamedSource;

    ghost spools = { λ _. None };

    fn sent(&self, alloc: Global) -> Result<Vec<u8>, OpenError> {
        match Vec::from_slice(alloc, self.input) {
            Ok(sent) => Ok(sent),
            Err(NoMem) => Err(OpenError::NoMem),
        }
    }

    fn sender(&self) -> Result<Option<u32>, OpenError> {
        Ok(self.sender)
    }

    fn open_spool(
        &self,
        _alloc: Global,
        name: &str,
    ) -> Result<OpenSpool<NamedSpool, NamedFolders>, OpenError> {
        spool_of(name)
    }

    fn spool_source(&self, _alloc: Global, name: &str) -> Result<NamedSource, OpenError> {
        source_of(name)
    }

    fn folders_of(&self, alloc: Global, name: &str) -> Result<Vec<Path>, OpenError> {
        folders_of(alloc, name)
    }

    fn unseen_of(&self, alloc: Global, name: &str) -> Result<Vec<u8>, OpenError> {
        match Vec::from_slice(alloc, unseen_of(name)) {
            Ok(rows) => Ok(rows),
            Err(NoMem) => Err(OpenError::NoMem),
        }
    }

    fn make_spool(
        &self,
        _alloc: Global,
        name: &str,
        _folders: &[Path],
    ) -> Result<OpenSpool<NamedSpool, NamedFolders>, OpenError> {
        spool_of(name)
    }
}

/// Spools that are made, and records that are taken: nothing is said.
pub(crate) const RECORDED: &str = r##"
sends: observe spool => 0 %(EMPTY)
sends: observe --start spool /srv => 0 %(EMPTY)
forges: observe --start spool /srv => 0 %(EMPTY)
sends: observe spool --start /srv /home/ann => 0 %(EMPTY)
begins: observe --help :: casebook observe --start SPOOL FOLDER..%(NL) => yes
same: observe --help :: help observe => yes
"##;

/// What is refused of the recorder: the exit status and the message.
pub(crate) const REFUSED_RECORDS: &str = r##"
refused: observe => 1 casebook: no SPOOL is given; see casebook help
refused: observe --start => 1 casebook: no SPOOL is given; see casebook help
refused: observe --start spool => 1 casebook: --start needs a FOLDER after SPOOL; see casebook help
  observe
refused: observe spool /srv => 1 casebook: FOLDER needs --start
refused: observe --start spool srv => 1 casebook: FOLDER: not a path from the root
refused: observe --start spool /srv home => 1 casebook: FOLDER: not a path from the root
refused: observe --stop spool => 1 casebook: these words are no command with its options; see
  casebook help
refused: observe spool => 1 casebook: spool: no record: it is cut off
forges: observe spool => 1 casebook: spool: no record: it is of another user
sends: observe none => 3 casebook: none: there is no such spool
sends: observe busy => 3 casebook: busy: somebody else has this spool
sends: observe damaged => 1 casebook: damaged: its list of folders can't be read
sends: observe gone => 3 casebook: gone: a folder that it watches isn't there
sends: observe locked => 3 casebook: locked: the system refuses to open it
refused: observe --start there /srv => 1 casebook: there: there is something with this name already
refused: observe --start hidden /srv => 3 casebook: hidden: a folder that it watches can't be looked
  at
sends: observe unread => 1 casebook: unread: its first look can't be read
sends: observe torn => 1 casebook: torn: its lines are damaged: row 1 after byte 0
sends: observe slow => 3 casebook: slow: its folders hold too much to be looked at in time
sends: observe hidden => 3 casebook: hidden: a folder that it watches can't be looked at
sends: observe full => 3 casebook: full: it can't be read or written
"##;
