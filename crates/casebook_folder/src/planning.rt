//! Plans.
ghost use Rattle.std.specs.Prelude.{◌≡◌, ◌↔◌, IfOk, IfSome, IsTrue, MatchOption, OnOk, false, true};
ghost use Rattle.casebook_folder.specs.Changes.{change_of, differs, node_eq, removes_dir};
ghost use Rattle.casebook_folder.specs.Changes.{wanted_of};
ghost use Rattle.casebook_folder.specs.Plans.{AreSeenRows, IsPlan, IsSeenRow};
ghost use Rattle.casebook_folder.specs.Steps.{HasOtherChild, after_steps};
ghost use Rattle.casebook_folder.specs.inner.Planning.{AppendsPlan, AppendsSeen, HasState};

use crate::NoMem;
use crate::change::Change;
use crate::folder::Folder;
use crate::folder_error::FolderError;
use crate::found::Found;
use crate::given::GivenAttributes;
use crate::planned_row::PlannedRow;
use retro_path::Path;
use retro_tree::{Node, Tree};
use std::alloc::Global;

/// A recorded and a repaired tree, and the attributes of what the folder doesn't have.
#[derive(Clone, Copy)]
pub struct Trees<'a> {
    /// The tree as it was recorded.
    pub recorded: &'a Tree,
    /// The tree as it is repaired.
    pub repaired: &'a Tree,
    /// The attributes of new nodes.
    pub given: &'a GivenAttributes,
}

/// Returns the plan for some paths: a row for each of them in which the two trees differ, in their
/// order. Only looks at the folder.
pub fn plan<F: Folder>(
    alloc: Global,
    folder: &F,
    trees: &Trees<'_>,
    paths: &[Path],
) -> Result<Vec<PlannedRow>, FolderError>
    // The rows are exactly the differing paths of these.
    ensures plan { IfOk result (λ rows. IsPlan trees.now.recorded.now trees.now.repaired.now
        trees.now.given.now paths.now rows.items) }
    // Each row says what the folder holds.
    ensures seen { IfSome (F.first folder.now) (λ first. IfOk result (λ rows.
        AreSeenRows (after_steps (F.made folder.now) first) rows.items)) }
{
    let mut rows = Vec::new(alloc);
    for path in paths {
        add_path(alloc, &mut rows, folder, trees, path)?;
    }
    Ok(rows)
}

/// Appends the row of a path, if the trees differ there.
fn add_path<F: Folder>(
    alloc: Global,
    rows: &mut Vec<PlannedRow>,
    folder: &F,
    trees: &Trees<'_>,
    path: &Path,
) -> Result<(), FolderError>
    ensures plan { OnOk result (AppendsPlan trees.now.recorded.now trees.now.repaired.now
        trees.now.given.now path.now rows.old.items rows.new.items) }
    ensures seen { IfSome (F.first folder.now) (λ first. OnOk result (
        AppendsSeen (after_steps (F.made folder.now) first) rows.old.items rows.new.items)) }
{
    if let Some(change) = change_at(alloc, trees, path)? {
        let row = planned_row(folder, change)?;
        rows.push(row)?;
    }
    Ok(())
}

/// Returns how the trees differ in a path, or `None` if they don't.
fn change_at(alloc: Global, trees: &Trees<'_>, path: &Path) -> Result<Option<Change>, NoMem>
    ensures { IfOk result (λ found. MatchOption found
        (differs trees.now.recorded.now trees.now.repaired.now path.now ≡ false)
        (λ change. (differs trees.now.recorded.now trees.now.repaired.now path.now ≡ true)
        × (change ≡ change_of trees.now.recorded.now trees.now.repaired.now trees.now.given.now
        path.now))) }
{
    let old = trees.recorded.node(path)?;
    let new = trees.repaired.node(path)?;
    if is_same_node(&old, &new) {
        return Ok(None);
    }
    let given = trees.given.attributes_for(path, &new);
    let children = trees.recorded.names(alloc, path)?;
    let path = path.copy()?;
    Ok(Some(Change {
        path,
        old,
        new,
        given,
        children,
    }))
}

/// Returns whether two nodes are the same.
fn is_same_node(old: &Node, new: &Node) -> bool
    ensures { result ≡ node_eq old.now new.now }
{
    match (old, new) {
        (Node::Missing, Node::Missing) | (Node::Dir, Node::Dir) => true,
        (Node::File(x), Node::File(y)) => x == y,
        _ => false,
    }
}

/// Returns the row of a change, by what a folder holds.
fn planned_row<F: Folder>(folder: &F, change: Change) -> Result<PlannedRow, FolderError>
    ensures change { IfOk result (λ row. row.change ≡ change) }
    ensures after { IfOk result (λ row. row.after ≡ wanted_of change row.before) }
    ensures state { IfOk result (λ row. HasState row) }
    ensures seen { IfSome (F.first folder.now) (λ first. IfOk result (λ row.
        IsSeenRow (after_steps (F.made folder.now) first) row)) }
{
    let before = folder.look(&change.path)?;
    let after = change.wanted_node(&before)?;
    let has_other_child = has_other_child(folder, &change, &before)?;
    let state = change.state(&before, has_other_child);
    Ok(PlannedRow {
        change,
        before,
        after,
        state,
    })
}

/// Returns whether a change removes a directory that is found, and the directory has a child that
/// the recorded tree doesn't have.
fn has_other_child<F: Folder>(
    folder: &F,
    change: &Change,
    found: &Found,
) -> Result<bool, FolderError>
    ensures { IfSome (F.first folder.now) (λ first. IfOk result (λ other.
        IsTrue other ↔ (IsTrue (removes_dir change.now found.now)
        × HasOtherChild (after_steps (F.made folder.now) first) change.now.path
        change.now.children))) }
{
    if !change.removes_dir(found) {
        return Ok(false);
    }
    folder.has_other_child(&change.path, &change.children)
}
