//! The calls of rows about trees.
use crate::streams::{stream, text_or_hex};
use casebook_folder::Attributes;
use casebook_snapshot::{Item, Listing, SkippedPath, Snapshot, walk};
use casebook_tar::read_members;
use casebook_tar_tree::{TarListing, TarTreeError};
use retro_path::{Bytes, Path};
use retro_rows::{path, text};
use retro_tree::Entry;
use std::alloc::Global;
use std::test::Fail;

/// Returns a mode and an owner as text.
fn attributes_text(alloc: Global, a: &Attributes) -> Result<String, Fail> {
    Ok(format!(in alloc; "{:o} {} {}", a.mode, a.uid, a.gid)?)
}

/// Returns bytes as text: digits if there are at most 8, and else how many there are.
fn bytes_text(alloc: Global, bytes: &Bytes) -> Result<String, Fail> {
    match bytes.len() {
        0 => Ok(text(alloc, "-")?),
        1..=8 => Ok(hex::encode(alloc, bytes.as_slice())?),
        count => Ok(format!(in alloc; "{count} bytes")?),
    }
}

/// Returns a directory or file as text.
fn entry_text(alloc: Global, entry: &Entry, a: &Attributes) -> Result<String, Fail> {
    let a = attributes_text(alloc, a)?;
    match entry {
        Entry::Dir => Ok(format!(in alloc; "dir {}", a.as_str())?),
        Entry::File(bytes) => {
            let bytes = bytes_text(alloc, bytes)?;
            Ok(format!(in alloc; "file {} {}", bytes.as_str(), a.as_str())?)
        }
    }
}

/// Returns a skipped path as text, with its name's bytes escaped.
fn skipped_text(alloc: Global, skipped: &SkippedPath) -> Result<String, Fail> {
    Ok(format!(in alloc;
        "{}/{} {:?}",
        skipped.child.parent.as_str(),
        skipped.child.name.as_slice().escape_ascii(),
        skipped.reason
    )?)
}

/// Returns a snapshot as text: its rows in order, and what is skipped in the order of the walk.
fn snapshot_text(alloc: Global, snapshot: &Snapshot) -> Result<String, Fail> {
    let mut out = String::new(alloc);
    for (path, row) in &snapshot.rows {
        if !out.is_empty() {
            out.push_str(", ")?;
        }
        out.push_str(if path.is_root() { "/" } else { path.as_str() })?;
        out.push_str(" ")?;
        out.push_str(entry_text(alloc, &row.entry, &row.attributes)?.as_str())?;
    }
    for skipped in &snapshot.skipped {
        out.push_str("; ")?;
        out.push_str(skipped_text(alloc, skipped)?.as_str())?;
    }
    Ok(out)
}

/// Returns an error as text.
fn error_text(alloc: Global, error: TarTreeError) -> Result<String, Fail> {
    match error {
        TarTreeError::Fault(fault) => Ok(format!(in alloc; "{fault:?}")?),
        TarTreeError::NoMem => Ok(text(alloc, "out of memory")?),
    }
}

/// Returns the snapshot of a stream's tree, or why it has none.
pub fn tree(alloc: Global, parts: &str) -> Result<String, Fail> {
    let bytes = stream(alloc, parts)?;
    let members = read_members(alloc, bytes.as_slice())?;
    let listing = match TarListing::of(alloc, bytes.as_slice(), members.as_slice()) {
        Ok(listing) => listing,
        Err(error) => return error_text(alloc, error),
    };
    match walk(alloc, &listing, &[]) {
        Ok(snapshot) => snapshot_text(alloc, &snapshot),
        Err(error) => Ok(format!(in alloc; "{error:?}")?),
    }
}

/// Returns the path that a field names.
fn path_of(alloc: Global, name: &str) -> Result<Path, Fail> {
    if name == "/" {
        return Ok(Path::root(alloc));
    }
    path(alloc, name)
}

/// Returns the names that the tree of a stream lists in a directory.
pub fn list(alloc: Global, parts: &str, name: &str) -> Result<String, Fail> {
    let bytes = stream(alloc, parts)?;
    let members = read_members(alloc, bytes.as_slice())?;
    let listing = TarListing::of(alloc, bytes.as_slice(), members.as_slice())?;
    let mut out = String::new(alloc);
    if let Some(children) = listing.list(alloc, &path_of(alloc, name)?)? {
        for child in &children {
            if !out.is_empty() {
                out.push_str(" ")?;
            }
            out.push_str(text_or_hex(alloc, child.name.as_slice())?.as_str())?;
        }
    }
    Ok(out)
}

/// Returns what the tree of a stream holds at a path.
pub fn look(alloc: Global, parts: &str, name: &str) -> Result<String, Fail> {
    let bytes = stream(alloc, parts)?;
    let members = read_members(alloc, bytes.as_slice())?;
    let listing = TarListing::of(alloc, bytes.as_slice(), members.as_slice())?;
    match listing.look(&path_of(alloc, name)?)? {
        Item::Missing => Ok(text(alloc, "missing")?),
        Item::Dir(a) => entry_text(alloc, &Entry::Dir, &a),
        Item::File(bytes, a) => entry_text(alloc, &Entry::File(bytes), &a),
        Item::Barred(reason) => Ok(format!(in alloc; "{reason:?}")?),
    }
}
