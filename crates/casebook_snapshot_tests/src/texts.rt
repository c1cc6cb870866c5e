//! Folders, read from texts, and snapshots as texts.
//!
//! A field has entries that `, ` separates: `/d dir`, `/f file ab`, `/l Link`. A mode in octal
//! digits may follow, and then an owner and a group: `/f file ab 640 7 8`. A `!` in a name is the
//! byte 255, which isn't UTF-8. `zeros 1024` is a file of so many zeros. The field `none` has no
//! entries.
use casebook_folder::Attributes;
use casebook_snapshot::{Child, Item, Memory, MemoryEntry, Reason, Row, SkippedPath};
use retro_path::{Bytes, NoMem, Path};
use retro_rows::{fail, path};
use retro_tree::Entry;
use std::alloc::Global;
use std::test::Fail;

/// Returns the reason of a name.
fn reason(name: &str) -> Result<Reason, Fail> {
    match name {
        "Link" => Ok(Reason::Link),
        "Device" => Ok(Reason::Device),
        "Pipe" => Ok(Reason::Pipe),
        "Socket" => Ok(Reason::Socket),
        "OtherFileSystem" => Ok(Reason::OtherFileSystem),
        "Unreadable" => Ok(Reason::Unreadable),
        "Changing" => Ok(Reason::Changing),
        _ => fail("no such reason"),
    }
}

/// Returns the attributes that words say, or those of a mode for the root user.
fn attributes(words: &[&str], mode: u32) -> Result<Attributes, Fail> {
    let (mode, uid, gid) = match words {
        [] => (mode, 0, 0),
        [mode] => (u32::from_str_radix(mode, 8)?, 0, 0),
        [mode, uid, gid] => (u32::from_str_radix(mode, 8)?, uid.parse()?, gid.parse()?),
        _ => return fail("no attributes"),
    };
    Ok(Attributes { mode, uid, gid })
}

/// Returns so many zeros.
fn zeros(alloc: Global, count: u32) -> Result<Bytes, NoMem> {
    let mut bytes = Bytes::new(alloc);
    for _ in 0..count / 1024 {
        bytes.extend(&[0; 1024])?;
    }
    for _ in 0..count % 1024 {
        bytes.extend(&[0])?;
    }
    Ok(bytes)
}

/// Returns what words say that is at a path.
fn item(alloc: Global, words: &[&str]) -> Result<Item, Fail> {
    match words {
        ["missing"] => Ok(Item::Missing),
        ["dir", more @ ..] => Ok(Item::Dir(attributes(more, 0o755)?)),
        ["zeros", count] => Ok(Item::File(zeros(alloc, count.parse()?)?, attributes(&[], 0o644)?)),
        ["file", text, more @ ..] => {
            let mut bytes = Bytes::new(alloc);
            bytes.extend(text.as_bytes())?;
            Ok(Item::File(bytes, attributes(more, 0o644)?))
        }
        [name] => Ok(Item::Barred(reason(name)?)),
        _ => fail("nothing that can be there"),
    }
}

/// Returns the directory and the name of a path that isn't the root.
fn child(alloc: Global, text: &str) -> Result<Child, Fail> {
    let Some((parent, text)) = text.rsplit_once('/') else {
        return fail("no path");
    };
    let mut name = Vec::new(alloc);
    for byte in text.as_bytes() {
        name.push(if *byte == b'!' { 255 } else { *byte })?;
    }
    let parent = if parent.is_empty() {
        Path::root(alloc)
    } else {
        path(alloc, parent)?
    };
    Ok(Child { parent, name })
}

/// Returns a listing in memory. Its root is a directory unless an entry says what it is.
pub fn memory(alloc: Global, field: &str) -> Result<Memory, Fail> {
    let mut root = Item::Dir(attributes(&[], 0o755)?);
    let mut entries = Vec::new(alloc);
    if field != "none" {
        for entry in field.split(", ") {
            let words: Vec<&str> = entry.split(' ').collect(alloc)?;
            let [name, more @ ..] = words.as_slice() else {
                return fail("no path");
            };
            let item = item(alloc, more)?;
            if *name == "/" {
                root = item;
            } else {
                entries.push(MemoryEntry {
                    child: child(alloc, name)?,
                    item,
                })?;
            }
        }
    }
    Ok(Memory::new(alloc, root, entries))
}

/// Returns a path as a text, `/` for the root.
fn name(path: &Path) -> &str {
    if path.is_root() {
        return "/";
    }
    path.as_str()
}

/// Returns a row as a text.
pub fn row_text(alloc: Global, path: &Path, held: &Row) -> Result<String, NoMem> {
    let a = held.attributes;
    let name = name(path);
    match &held.entry {
        Entry::Dir => format!(in alloc; "{name} dir {:o} {} {}", a.mode, a.uid, a.gid),
        Entry::File(bytes) => format!(in alloc;
            "{name} file {} {:o} {} {}",
            bytes.len(),
            a.mode,
            a.uid,
            a.gid
        ),
    }
}

/// Returns a skipped path as a text, with its name's bytes escaped.
pub fn skipped_text(alloc: Global, skipped: &SkippedPath) -> Result<String, NoMem> {
    format!(in alloc;
        "{}/{} {:?}",
        skipped.child.parent.as_str(),
        skipped.child.name.as_slice().escape_ascii(),
        skipped.reason
    )
}
