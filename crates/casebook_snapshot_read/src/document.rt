//! Reads the document of a snapshot.
ghost use Rattle.retro_value.specs.Borrowed.{value_data};
ghost use Rattle.casebook_snapshot_read.specs.Documents.{document_of, document_view};
ghost use Rattle.casebook_snapshot_read.specs.Documents.{document_in, document_in_text, snapshot_in};
ghost use Rattle.casebook_snapshot_read.specs.Documents.{snapshot_view, tree_of};
ghost use Rattle.casebook_snapshot_read.specs.Members.{members_view};
ghost use Rattle.casebook_snapshot_read.specs.Reads.{Reads};

use crate::fault::SnapshotFault;
use crate::joining::{join, root_of};
use crate::lists::{read_attributes, read_skipped, read_tree};
use crate::members::{Members, members_of};
use casebook_snapshot::Snapshot;
use json::{Scratch, Value};
use retro_json::{LogFault, tree_of_rows};
use retro_path::Path;
use retro_tree::{Entry, State};
use retro_value::read_whole;
use std::alloc::Global;
use std::str::from_utf8;

/// What the document of a snapshot holds.
#[derive(Drop)]
pub struct SnapshotDocument {
    /// The snapshot. Directories above the folder have the mode 755 and the owner 0.
    pub snapshot: Snapshot,
    /// The path of the folder in the snapshot.
    pub at: Path,
    /// The folder's own name.
    pub root: String,
    /// The time at which the snapshot was taken.
    pub taken: String,
}

/// Returns the state that has the tree of some rows.
fn tree_of(alloc: Global, rows: Vec<(Path, Entry)>) -> Result<State, SnapshotFault>
    ensures { Reads (λ state. state.tree) result (tree_of rows.items) }
{
    match tree_of_rows(alloc, rows) {
        Ok(state) => Ok(state),
        Err(LogFault::NoMem) => Err(SnapshotFault::NoMem),
        Err(LogFault::Refused(_)) => Err(SnapshotFault::LawlessTree),
    }
}

/// Reads a snapshot and the path of its folder.
fn snapshot_in(alloc: Global, members: &Members<'_, '_>) -> Result<(Snapshot, Path), SnapshotFault>
    ensures { Reads (λ read. (snapshot_view read.0, read.1)) result
        (snapshot_in (members_view members.now)) }
{
    let tree = read_tree(alloc, members.tree)?;
    let attributes = read_attributes(alloc, members.attributes)?;
    let skipped = read_skipped(alloc, members.skipped)?;
    let state = tree_of(alloc, tree)?;
    let at = root_of(attributes.as_slice())?;
    let rows = join(alloc, &at, attributes, state.tree())?;
    Ok((Snapshot { rows, skipped }, at))
}

/// Reads a document from its value.
fn document_of(alloc: Global, value: &Value<'_>) -> Result<SnapshotDocument, SnapshotFault>
    ensures { Reads document_view result (document_of (value_data value.now)) }
{
    let members = members_of(value)?;
    let (snapshot, at) = snapshot_in(alloc, &members)?;
    Ok(SnapshotDocument {
        snapshot,
        at,
        root: String::from_str(alloc, members.root)?,
        taken: String::from_str(alloc, members.taken)?,
    })
}

/// Reads a document from its text.
fn document_in_text(alloc: Global, text: &str) -> Result<SnapshotDocument, SnapshotFault>
    ensures { Reads document_view result (document_in_text text.now) }
{
    let mut scratch = Scratch::new(alloc);
    let value = read_whole(alloc, text, &mut scratch)?;
    document_of(alloc, &value)
}

/// Reads the document of a snapshot, as `write_snapshot` of `casebook_snapshot_json` writes it. Its
/// keys, and the rows of each list, may be in any order, but the folder's row is the first of
/// `attributes`. Hexadecimal digits may be of either case.
///
/// # Errors
///
/// The first fault in this order:
///
/// - `NotJson` if the bytes aren't UTF-8, or not exactly one JSON value,
/// - `NotASnapshot` if the value isn't an object with exactly the keys of a snapshot, lists and
///   texts where they belong, and version 1 (if a key occurs twice, its last value counts),
/// - `BadRow` for the first row of `tree`, then of `attributes`, then of `skipped`, that isn't one,
/// - `LawlessTree` if the directories and files don't make a lawful tree,
/// - `OtherPaths` if the attributes aren't those of exactly one directory of the tree and of each
///   path below it, or if the tree has another path besides the directories above that one.
#[tactic(auto, using(crate::proofs::Texts::texts))]
pub fn read_snapshot(alloc: Global, text: &[u8]) -> Result<SnapshotDocument, SnapshotFault>
    ensures { Reads document_view result (document_in text.now) }
{
    match from_utf8(text) {
        Ok(text) => document_in_text(alloc, text),
        Err(_) => Err(SnapshotFault::NotJson),
    }
}
