//! Joins the tree of a document with its modes and owners.
ghost use Rattle.std.specs.Prelude.{◌≡◌, ◌==◌, ◌&&◌, IfOk, OnOk};
ghost use Rattle.std.specs.FinMap as finite;
ghost use Rattle.std.specs.BTreeMap as maps;
ghost use Rattle.retro_path.specs.Order.{path_cmp};
ghost use Rattle.retro_path.specs.Path.{PathValue};
ghost use Rattle.casebook_snapshot_read.specs.Joined.{AreInOrder, attributes_at, attributes_by};
ghost use Rattle.casebook_snapshot_read.specs.Joined.{count_in, each, row_with, rows_of, root_of};
ghost use Rattle.casebook_snapshot_read.specs.Joined.{is_folder};
ghost use Rattle.casebook_snapshot_read.specs.Reads.{Reads};

use crate::NoMem;
use crate::fault::SnapshotFault;
use casebook_folder::Attributes;
use casebook_snapshot::Row;
use retro_path::Path;
use retro_tree::{Entry, Tree};
use std::alloc::Global;
use std::collections::BTreeMap;

/// What is said of the mode and owner of directories above the folder, of which nothing is known.
const ABOVE: Attributes = Attributes {
    mode: 0o755,
    uid: 0,
    gid: 0,
};

/// Returns the map of some rows. Of a path that occurs twice the last row counts.
fn map_of(alloc: Global, rows: Vec<(Path, Attributes)>) -> Result<BTreeMap<Path, Attributes>, NoMem>
    ensures { IfOk result (λ known. (q : PathValue)
        → maps.get path_cmp known q ≡ attributes_by rows.items q) }
{
    rows.into_iter().collect(alloc)
}

/// Returns the mode and owner of a path of the tree. Nothing is known of a path that is neither in
/// the folder nor above it.
fn attributes_at(at: &Path, known: &BTreeMap<Path, Attributes>, path: &Path) -> Option<Attributes>
    ensures { result ≡ attributes_at at.now (maps.get path_cmp known.now) path.now }
{
    if path.starts_with(at) {
        return known.get(path).copied();
    }
    if at.starts_with(path) {
        return Some(ABOVE);
    }
    None
}

/// Returns an entry of the tree with its mode and owner.
fn row_with(
    at: &Path,
    known: &BTreeMap<Path, Attributes>,
    path: &Path,
    entry: &Entry,
) -> Result<(Path, Row), SnapshotFault>
    ensures { Reads (λ row. row) result
        (row_with at.now (maps.get path_cmp known.now) (path.now, entry.now)) }
{
    let Some(attributes) = attributes_at(at, known, path) else {
        return Err(SnapshotFault::OtherPaths);
    };
    let path = path.copy()?;
    let entry = entry.clone()?;
    Ok((path, Row { entry, attributes }))
}

/// Returns the entries of the tree with their modes and owners.
fn rows_with(
    alloc: Global,
    at: &Path,
    known: &BTreeMap<Path, Attributes>,
    tree: &Tree,
) -> Result<Vec<(Path, Row)>, SnapshotFault>
    ensures { Reads (λ rows. rows.items) result
        (each (row_with at.now (maps.get path_cmp known.now)) (finite.entries tree.now)) }
{
    let mut rows = Vec::new(alloc);
    for (path, entry) in tree.iter() {
        rows.push(row_with(at, known, path, entry)?)?;
    }
    Ok(rows)
}

/// Returns whether so many paths of the tree are a path or below it.
fn has_count(at: &Path, tree: &Tree, count: usize) -> bool
    ensures { result ≡ (count == count_in at.now tree.now) }
{
    let mut left = count;
    for (path, _) in tree.iter() {
        if path.starts_with(at) {
            if left == 0 {
                return false;
            }
            left -= 1;
        }
    }
    left == 0
}

/// Inserts a row.
fn insert_row(map: &mut BTreeMap<Path, Row>, path: Path, row: Row) -> Result<(), NoMem>
    ensures { OnOk result (map.new.entries ≡ maps.insert_entry path_cmp map.old.entries path row) }
{
    map.insert(path, row)?;
    Ok(())
}

/// Returns the map of rows that are in order of their paths.
fn in_order(alloc: Global, rows: Vec<(Path, Row)>) -> Result<BTreeMap<Path, Row>, NoMem>
    requires { AreInOrder rows.items }
    ensures { IfOk result (λ map. map.entries ≡ rows.items) }
{
    let mut map = BTreeMap::new(alloc);
    for (path, row) in rows {
        insert_row(&mut map, path, row)?;
    }
    Ok(map)
}

/// Returns whether a path is a directory of the tree.
fn is_folder(at: &Path, tree: &Tree) -> bool
    ensures { result ≡ is_folder at.now tree.now }
{
    matches!(tree.get(at), Some(Entry::Dir))
}

/// Returns the path of the folder: that of the first row of modes and owners.
pub(crate) fn root_of(rows: &[(Path, Attributes)]) -> Result<Path, SnapshotFault>
    ensures { Reads (λ path. path) result (root_of rows.now) }
{
    match rows {
        [(path, _), ..] => Ok(path.copy()?),
        [] => Err(SnapshotFault::OtherPaths),
    }
}

/// Returns whether a path is a directory, and so many paths of the tree are that one or below it.
fn has_paths(at: &Path, tree: &Tree, count: usize) -> bool
    ensures { result ≡ is_folder at.now tree.now && (count == count_in at.now tree.now) }
{
    is_folder(at, tree) && has_count(at, tree, count)
}

/// Returns the map of the entries of the tree with their modes and owners.
fn row_map(
    alloc: Global,
    at: &Path,
    known: &BTreeMap<Path, Attributes>,
    tree: &Tree,
) -> Result<BTreeMap<Path, Row>, SnapshotFault>
    ensures { Reads (λ rows. rows.entries) result
        (each (row_with at.now (maps.get path_cmp known.now)) (finite.entries tree.now)) }
{
    let rows = rows_with(alloc, at, known, tree)?;
    Ok(in_order(alloc, rows)?)
}

/// Joins the tree with the modes and owners of the folder at a path and of all that is below it.
#[tactic(auto, using(crate::proofs::Ordered::joined))]
pub(crate) fn join(
    alloc: Global,
    at: &Path,
    rows: Vec<(Path, Attributes)>,
    tree: &Tree,
) -> Result<BTreeMap<Path, Row>, SnapshotFault>
    ensures { Reads (λ rows. rows.entries) result (rows_of at.now rows.items tree.now) }
{
    if !has_paths(at, tree, rows.len()) {
        return Err(SnapshotFault::OtherPaths);
    }
    let known = map_of(alloc, rows)?;
    row_map(alloc, at, &known, tree)
}
