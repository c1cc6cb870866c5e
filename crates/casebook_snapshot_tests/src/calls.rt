//! The calls that rows name.
use crate::texts::{memory, row_text, skipped_text};
use casebook_folder::Attributes;
use casebook_snapshot::{Child, Item, Listing, Memory, MemoryEntry, Placed, Snapshot, walk};
use casebook_snapshot_json::write_snapshot;
use casebook_snapshot_read::{SnapshotDocument, read_snapshot};
use retro_path::{NoMem, Path};
use retro_rows::{fail, path};
use std::alloc::Global;
use std::test::Fail;

/// Returns the paths that a field names, separated by spaces, or none for `none`.
fn paths(alloc: Global, field: &str) -> Result<Vec<Path>, Fail> {
    let mut paths = Vec::new(alloc);
    if field != "none" {
        for name in field.split(' ') {
            paths.push(path(alloc, name)?)?;
        }
    }
    Ok(paths)
}

/// Appends a text after a separator, if it isn't the first one.
fn push_after(out: &mut String, separator: &str, text: &str) -> Result<(), NoMem> {
    if !out.is_empty() {
        out.push_str(separator)?;
    }
    out.push_str(text)
}

/// Returns a snapshot as a text: its rows in order, and what is skipped in order of the texts.
fn snapshot_text(alloc: Global, snapshot: &Snapshot) -> Result<String, NoMem> {
    let mut out = String::new(alloc);
    for (path, held) in &snapshot.rows {
        push_after(&mut out, ", ", row_text(alloc, path, held)?.as_str())?;
    }
    let mut skipped = Vec::new(alloc);
    for one in &snapshot.skipped {
        skipped.push(skipped_text(alloc, one)?)?;
    }
    skipped.sort()?;
    for text in &skipped {
        push_after(&mut out, "; ", text.as_str())?;
    }
    Ok(out)
}

/// Returns the snapshot of a listing, without some paths, as a text.
fn walked<L: Listing>(alloc: Global, listing: &L, skip: &str) -> Result<String, Fail> {
    match walk(alloc, listing, paths(alloc, skip)?.as_slice()) {
        Ok(snapshot) => Ok(snapshot_text(alloc, &snapshot)?),
        Err(error) => Ok(format!(in alloc; "{error:?}")?),
    }
}

/// Returns the snapshot of a folder, without some paths.
pub fn snapshot(alloc: Global, folder: &str, skip: &str) -> Result<String, Fail> {
    walked(alloc, &memory(alloc, folder)?, skip)
}

/// Returns the snapshot of a folder that is put at a path, without some paths.
pub fn placed(alloc: Global, folder: &str, at: &str, skip: &str) -> Result<String, Fail> {
    let listing = Placed::new(alloc, memory(alloc, folder)?, path(alloc, at)?);
    walked(alloc, &listing, skip)
}

/// Returns a document as a text: its snapshot, the path and the name of its folder, and its time.
fn document_text(alloc: Global, document: &SnapshotDocument) -> Result<String, NoMem> {
    format!(in alloc;
        "{}; at {}/ of {}, {}",
        snapshot_text(alloc, &document.snapshot)?.as_str(),
        document.at.as_str(),
        document.root.as_str(),
        document.taken.as_str()
    )
}

/// Reads a document. A `!` in it is the byte 255, which isn't UTF-8.
pub fn read(alloc: Global, text: &str) -> Result<String, Fail> {
    let mut bytes = Vec::new(alloc);
    for byte in text.as_bytes() {
        bytes.push(if *byte == b'!' { 255 } else { *byte })?;
    }
    match read_snapshot(alloc, bytes.as_slice()) {
        Ok(document) => Ok(document_text(alloc, &document)?),
        Err(fault) => Ok(format!(in alloc; "{fault}")?),
    }
}

/// Reads the document of a folder that is put at a path, and returns its text.
pub fn again(alloc: Global, folder: &str, at: &str) -> Result<String, Fail> {
    let at = path(alloc, at)?;
    let listing = Placed::new(alloc, memory(alloc, folder)?, at.copy()?);
    let Ok(snapshot) = walk(alloc, &listing, &[]) else {
        return fail("no snapshot");
    };
    let text = write_snapshot(alloc, &snapshot, &at, "home", "now")?;
    let Ok(document) = read_snapshot(alloc, text.as_slice()) else {
        return fail("the document isn't read");
    };
    let (root, taken) = (document.root.as_str(), document.taken.as_str());
    let twice = write_snapshot(alloc, &document.snapshot, &document.at, root, taken)?;
    if twice.as_slice() != text.as_slice() {
        return fail("another document");
    }
    Ok(document_text(alloc, &document)?)
}

/// Returns a directory of the root user.
fn directory() -> Item {
    Item::Dir(Attributes {
        mode: 0o755,
        uid: 0,
        gid: 0,
    })
}

/// Returns how many rows the snapshot of so many directories has, each in the one before it, or all
/// in the root.
pub fn nested(alloc: Global, count: &str, is_deep: bool) -> Result<String, Fail> {
    let mut entries = Vec::new(alloc);
    let mut parent = Path::root(alloc);
    for number in 0..count.parse::<u32>()? {
        let text = format!(in alloc; "n{number}")?;
        let mut name = Vec::new(alloc);
        name.extend_from_slice(text.as_bytes())?;
        let below = format!(in alloc; "{}/{}", parent.as_str(), text.as_str())?;
        entries.push(MemoryEntry {
            child: Child {
                parent: parent.copy()?,
                name,
            },
            item: directory(),
        })?;
        if is_deep {
            parent = path(alloc, below.as_str())?;
        }
    }
    let memory = Memory::new(alloc, directory(), entries);
    match walk(alloc, &memory, &[]) {
        Ok(snapshot) => Ok(format!(in alloc;
            "{} rows, {} skipped",
            snapshot.rows.len(),
            snapshot.skipped.len()
        )?),
        Err(_) => fail("no snapshot"),
    }
}
