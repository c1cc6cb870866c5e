//! Trees and folders, read from texts and shown as texts.
//!
//! A field has entries that `, ` separates: `/d dir`, `/f file ab`, `/l blocked Link`. In a folder
//! a mode in octal digits may follow, and then an owner and a group: `/f file ab 640 7 8`. The
//! field `none` has no entries.
use casebook_folder::{Attributes, Entry, Found, Memory, Obstacle};
use retro_path::{Bytes, NoMem, Path};
use retro_rows::{fail, path};
use retro_tree::{Node, State};
use std::alloc::Global;
use std::test::Fail;

/// Returns the obstacle of a name.
fn obstacle(name: &str) -> Result<Obstacle, Fail> {
    match name {
        "Link" => Ok(Obstacle::Link),
        "Above" => Ok(Obstacle::Above),
        "SeveralNames" => Ok(Obstacle::SeveralNames),
        "NameTaken" => Ok(Obstacle::NameTaken),
        _ => fail("no such obstacle"),
    }
}

/// Returns a mode with the root user as owner.
pub fn attributes_of(mode: u32) -> Attributes {
    Attributes {
        mode,
        uid: 0,
        gid: 0,
    }
}

/// Returns the attributes that words say, or those of a mode for the root user.
fn attributes(words: &[&str], mode: u32) -> Result<Attributes, Fail> {
    match words {
        [] => Ok(attributes_of(mode)),
        [mode] => Ok(attributes_of(u32::from_str_radix(mode, 8)?)),
        [mode, uid, gid] => Ok(Attributes {
            mode: u32::from_str_radix(mode, 8)?,
            uid: uid.parse()?,
            gid: gid.parse()?,
        }),
        _ => fail("no attributes"),
    }
}

/// Returns what words say that is at a path.
pub fn found(alloc: Global, words: &[&str]) -> Result<Found, Fail> {
    match words {
        ["missing"] => Ok(Found::Missing),
        ["blocked", name] => Ok(Found::Blocked(obstacle(name)?)),
        ["dir", more @ ..] => Ok(Found::Dir(attributes(more, 0o755)?)),
        ["file", text, more @ ..] => {
            let mut bytes = Bytes::new(alloc);
            bytes.extend(text.as_bytes())?;
            Ok(Found::File(bytes, attributes(more, 0o644)?))
        }
        _ => fail("nothing that can be found"),
    }
}

/// Returns the entries of a folder.
pub fn entries(alloc: Global, field: &str) -> Result<Vec<Entry>, Fail> {
    let mut entries = Vec::new(alloc);
    if field == "none" {
        return Ok(entries);
    }
    for entry in field.split(", ") {
        let words: Vec<&str> = entry.split(' ').collect(alloc)?;
        let [name, more @ ..] = words.as_slice() else {
            return fail("no path");
        };
        entries.push(Entry {
            path: path(alloc, name)?,
            found: found(alloc, more)?,
        })?;
    }
    Ok(entries)
}

/// Returns a folder in memory.
pub fn memory(alloc: Global, field: &str) -> Result<Memory, Fail> {
    Ok(Memory::new(alloc, entries(alloc, field)?))
}

/// Returns the node that is found.
fn node(found: &Found) -> Result<Node, Fail> {
    match found {
        Found::Missing => Ok(Node::Missing),
        Found::Dir(_) => Ok(Node::Dir),
        Found::File(bytes, _) => Ok(Node::File(bytes.copy()?)),
        Found::Blocked(_) => fail("no node"),
    }
}

/// Returns a state whose tree has these entries.
pub fn state(alloc: Global, entries: &[Entry]) -> Result<State, Fail> {
    let mut state = State::empty(alloc)?;
    for entry in entries {
        state.place(entry.path.copy()?, node(&entry.found)?)?;
    }
    Ok(state)
}

/// Returns attributes as a text, without the root user and its group.
fn attributes_text(alloc: Global, a: &Attributes) -> Result<String, NoMem> {
    if a.uid == 0 && a.gid == 0 {
        return format!(in alloc; "{:o}", a.mode);
    }
    format!(in alloc; "{:o} {} {}", a.mode, a.uid, a.gid)
}

/// Returns what is found as a text.
pub fn found_text(alloc: Global, found: &Found) -> Result<String, NoMem> {
    match found {
        Found::Missing => format!(in alloc; "missing"),
        Found::Dir(a) => format!(in alloc; "dir {}", attributes_text(alloc, a)?.as_str()),
        Found::File(bytes, a) => format!(in alloc;
            "file {} {}",
            bytes.as_slice().escape_ascii(),
            attributes_text(alloc, a)?.as_str()
        ),
        Found::Blocked(obstacle) => format!(in alloc; "blocked {obstacle:?}"),
    }
}

/// Appends a text after a separator, if it isn't the first one.
pub fn push_after(out: &mut String, separator: &str, text: &str) -> Result<(), NoMem> {
    if !out.is_empty() {
        out.push_str(separator)?;
    }
    out.push_str(text)
}

/// Returns a path as a text, `/` for the root.
pub fn name(path: &Path) -> &str {
    if path.is_root() {
        return "/";
    }
    path.as_str()
}
