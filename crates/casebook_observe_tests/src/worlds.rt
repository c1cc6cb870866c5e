//! Watched folders in memory, read from texts.
//!
//! A text has entries that `, ` separates: a path, a kind, a number, and what isn't usual, as
//! `/f file 7 size=5 mode=640 read=10.5 holds=hello`. A time is a second, and maybe a point and a
//! nanosecond. Without a word the size is 0, the mode 644, owner and group are 0, each time is
//! second 0, and a file or a link holds nothing. `holds=` is what a file holds, `target=` where a
//! link leads, `unkept=` why a file couldn't be read, and `looked=` when it was read last, by the
//! look itself. The text `none` has no entries.
ghost use Rattle.std.specs.Prelude.{None};

use casebook_folder::Attributes;
use casebook_observe::{Found, WatchError, Watched};
use casebook_spool::{Looked, Unkept};
use casebook_watch::{FileTime, Kind, Sight, Sights};
use retro_path::{Bytes, NoMem, Path};
use retro_rows::{fail, path, text};
use std::alloc::Global;
use std::test::Fail;

/// What a file or a link holds.
#[derive(Drop)]
enum Held {
    /// A file holds these bytes.
    Bytes(String),
    /// A link leads there.
    Target(String),
    /// A file couldn't be read.
    Unkept(Unkept),
}

/// What is at a path.
#[derive(Drop)]
pub struct Entry {
    /// The path.
    pub path: Path,
    /// Its sight.
    pub sight: Sight,
    /// What it holds, if it is a file or a link.
    held: Held,
    /// When it was read last, if the look itself read it.
    looked: Option<FileTime>,
}

/// Returns the kind of a name.
fn kind(name: &str) -> Result<Kind, Fail> {
    match name {
        "dir" => Ok(Kind::Dir),
        "file" => Ok(Kind::File),
        "link" => Ok(Kind::Link),
        "other" => Ok(Kind::Other),
        _ => fail("no such kind"),
    }
}

/// Returns the time that a text says.
pub fn time(text: &str) -> Result<FileTime, Fail> {
    match text.split_once('.') {
        Some((second, nanosecond)) => Ok(FileTime {
            second: second.parse()?,
            nanosecond: nanosecond.parse()?,
        }),
        None => Ok(FileTime {
            second: text.parse()?,
            nanosecond: 0,
        }),
    }
}

/// Returns why a file couldn't be read.
pub fn unkept(why: &str) -> Result<Unkept, Fail> {
    match why {
        "too-large" => Ok(Unkept::TooLarge),
        "unreadable" => Ok(Unkept::Unreadable),
        "changing" => Ok(Unkept::Changing),
        _ => fail("no such reason"),
    }
}

/// Returns the sight of a kind and a number, with what is usual.
fn usual(kind: Kind, number: u64) -> Sight {
    let time = FileTime {
        second: 0,
        nanosecond: 0,
    };
    Sight {
        kind,
        size: 0,
        number,
        attributes: Attributes {
            mode: 0o644,
            uid: 0,
            gid: 0,
        },
        read: time,
        written: time,
        changed: time,
    }
}

/// Sets what a word says of a sight.
fn set_sight(sight: &mut Sight, word: &str) -> Result<(), Fail> {
    match word.split_once('=') {
        Some(("size", value)) => sight.size = value.parse()?,
        Some(("mode", value)) => sight.attributes.mode = u32::from_str_radix(value, 8)?,
        Some(("uid", value)) => sight.attributes.uid = value.parse()?,
        Some(("gid", value)) => sight.attributes.gid = value.parse()?,
        Some(("read", value)) => sight.read = time(value)?,
        Some(("written", value)) => sight.written = time(value)?,
        Some(("changed", value)) => sight.changed = time(value)?,
        _ => return fail("no such word"),
    }
    Ok(())
}

/// Sets what a word says of an entry.
fn set(alloc: Global, entry: &mut Entry, word: &str) -> Result<(), Fail> {
    match word.split_once('=') {
        Some(("holds", value)) => entry.held = Held::Bytes(text(alloc, value)?),
        Some(("target", value)) => entry.held = Held::Target(text(alloc, value)?),
        Some(("unkept", value)) => entry.held = Held::Unkept(unkept(value)?),
        Some(("looked", value)) => entry.looked = Some(time(value)?),
        _ => set_sight(&mut entry.sight, word)?,
    }
    Ok(())
}

/// Returns what is usual at a path.
fn usual_entry(alloc: Global, path: Path, kind: Kind, number: u64) -> Entry {
    let empty = String::new(alloc);
    Entry {
        path,
        sight: usual(kind, number),
        held: match kind {
            Kind::Link => Held::Target(empty),
            _ => Held::Bytes(empty),
        },
        looked: None,
    }
}

/// Reads an entry.
pub fn entry_of(alloc: Global, field: &str) -> Result<Entry, Fail> {
    let words: Vec<&str> = field.split(' ').collect(alloc)?;
    let [name, of, number, more @ ..] = words.as_slice() else {
        return fail("no entry");
    };
    let path = path(alloc, name)?;
    let mut entry = usual_entry(alloc, path, kind(of)?, number.parse()?);
    for word in more {
        set(alloc, &mut entry, word)?;
    }
    Ok(entry)
}

/// Watched folders in memory.
#[derive(Drop)]
pub struct MemoryWatched {
    /// What is there.
    entries: Vec<Entry>,
    /// How many calls there were.
    pub calls: u32,
    /// The call that fails, counted from 1, and with which error.
    pub failing: Option<(u32, WatchError)>,
}

/// Returns the result of a call, of what could only lack memory.
fn or_no_mem<T>(given: Result<T, NoMem>) -> Result<T, WatchError> {
    match given {
        Ok(value) => Ok(value),
        Err(NoMem) => Err(WatchError::NoMem),
    }
}

/// Returns a text as bytes.
fn bytes_of(alloc: Global, text: &str) -> Result<Bytes, NoMem> {
    let mut bytes = Bytes::new(alloc);
    bytes.extend(text.as_bytes())?;
    Ok(bytes)
}

/// Returns what is found in a file or a link.
fn found_of(alloc: Global, held: &Held) -> Result<Found, NoMem> {
    match held {
        Held::Bytes(text) => Ok(Found::Bytes(bytes_of(alloc, text.as_str())?)),
        Held::Target(text) => Ok(Found::Target(bytes_of(alloc, text.as_str())?)),
        Held::Unkept(why) => Ok(Found::Unkept(*why)),
    }
}

impl MemoryWatched {
    /// Reads watched folders, none of whose calls fails.
    pub fn of(alloc: Global, field: &str) -> Result<MemoryWatched, Fail> {
        let mut entries = Vec::new(alloc);
        if field != "none" {
            for entry in field.split(", ") {
                entries.push(entry_of(alloc, entry)?)?;
            }
        }
        Ok(MemoryWatched {
            entries,
            calls: 0,
            failing: None,
        })
    }

    /// Counts a call, and fails if this one is to.
    fn call(&mut self) -> Result<(), WatchError> {
        self.calls = self.calls.saturating_add(1);
        match self.failing {
            Some((call, error)) if call == self.calls => Err(error),
            _ => Ok(()),
        }
    }

    /// Returns the sights.
    pub fn sights(&self, alloc: Global) -> Result<Sights, NoMem> {
        let mut sights = Sights::new(alloc);
        for entry in &self.entries {
            sights.insert(entry.path.copy()?, entry.sight)?;
        }
        Ok(sights)
    }

    /// Returns what is found at a path. Where nothing is, that changes each time.
    fn found(&self, alloc: Global, path: &Path) -> Result<Found, NoMem> {
        for entry in &self.entries {
            if entry.path == *path {
                return found_of(alloc, &entry.held);
            }
        }
        Ok(Found::Unkept(Unkept::Changing))
    }

    /// Returns what the look itself read.
    fn read_by_look(&self, alloc: Global) -> Result<Vec<Looked>, NoMem> {
        let mut looked = Vec::new(alloc);
        for entry in &self.entries {
            if let Some(read) = entry.looked {
                looked.push(Looked {
                    path: entry.path.copy()?,
                    read,
                })?;
            }
        }
        Ok(looked)
    }
}

impl Watched for MemoryWatched {
    // Nothing is said of what they find.
    ghost finds = { λ _. None };

    fn look(&mut self, alloc: Global, _before: &Sights) -> Result<Sights, WatchError> {
        self.call()?;
        or_no_mem(self.sights(alloc))
    }

    fn read(&mut self, alloc: Global, path: &Path) -> Result<Found, WatchError> {
        self.call()?;
        or_no_mem(self.found(alloc, path))
    }

    fn looked(&mut self, alloc: Global) -> Result<Vec<Looked>, WatchError> {
        self.call()?;
        or_no_mem(self.read_by_look(alloc))
    }
}
