//! Compares a recorded tree with a snapshot of a folder.
ghost use Rattle.std.specs.Prelude.{◌≡◌, Some, IfOk, count_by};
ghost use Rattle.std.specs.Option.{option_copied};
ghost use Rattle.retro_tree.specs.Node.{node_of};
ghost use Rattle.retro_tree.specs.Path.{PathValue};
ghost use Rattle.retro_tree.specs.Tree.{node_in};
ghost use Rattle.casebook_compare.specs.Comparison.{IsComparison, IsTreeOf, is_same_row};
ghost use Rattle.casebook_compare.specs.Comparison.{same_entries};

use crate::NoMem;
use crate::comparison::Comparison;
use crate::coverage::Coverage;
use crate::unread::unread_paths;
use casebook_changes::changed_paths;
use casebook_snapshot::{Row, Snapshot};
use retro_tree::{Entry, Node, Path, State, Tree};
use std::alloc::Global;
use std::collections::BTreeMap;

/// Returns the node of an entry.
fn node_of(entry: Entry) -> Node
    ensures { result ≡ node_of (Some entry) }
{
    match entry {
        Entry::Dir => Node::Dir,
        Entry::File(bytes) => Node::File(bytes),
    }
}

/// Returns the tree that the rows of a snapshot make, in a state without sessions.
pub fn snapshot_tree(alloc: Global, rows: BTreeMap<Path, Row>) -> Result<State, NoMem>
    ensures { IfOk result (λ state. IsTreeOf rows state.tree) }
{
    let mut state = State::empty(alloc)?;
    // The root is one of the rows, if there is one.
    state.place(Path::root(alloc), Node::Missing)?;
    for (path, row) in rows {
        state.place(path, node_of(row.entry))?;
    }
    Ok(state)
}

/// Returns whether a recorded entry is that of a folder.
fn is_same(recorded: Option<&Entry>, entry: &Entry) -> bool
    ensures { result ≡ same_entries (option_copied recorded.entry) entry.now }
{
    match (recorded, entry) {
        (Some(Entry::Dir), Entry::Dir) => true,
        (Some(Entry::File(old)), Entry::File(new)) => old == new,
        _ => false,
    }
}

/// Returns how many rows of a folder that is put at a path are as recorded.
fn count_same(recorded: &Tree, at: &Path, rows: &BTreeMap<Path, Row>) -> usize
    ensures { result ≡ count_by (is_same_row recorded.now at.now) rows.now.entries }
{
    rows.iter()
        .filter(|(path, row)| path.starts_with(at) && is_same(recorded.get(path), &row.entry))
        .count()
}

/// Compares a recorded tree with a snapshot of a folder that is put at a path. Reads each entry of
/// both once or twice, and copies only the paths that differ.
pub fn compare(
    alloc: Global,
    recorded: &Tree,
    snapshot: Snapshot,
    at: &Path,
) -> Result<Comparison, NoMem>
    ensures { IfOk result (IsComparison recorded.now snapshot at.now) }
{
    let same = count_same(recorded, at, &snapshot.rows);
    let folder = snapshot_tree(alloc, snapshot.rows)?;
    let changed = changed_paths(alloc, recorded, folder.tree())?;
    let coverage = Coverage::of(alloc, at, snapshot.skipped.as_slice())?;
    let different = coverage.covered(alloc, changed)?;
    let unread = unread_paths(alloc, recorded, snapshot.skipped.as_slice())?;
    Ok(Comparison {
        folder,
        same,
        different,
        unread,
    })
}
