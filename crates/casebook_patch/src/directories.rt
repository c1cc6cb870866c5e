//! The directories that a patch doesn't make or remove.
ghost use Rattle.std.specs.Prelude.{◌≡◌, IfOk};
ghost use Rattle.std.specs.List.{list_any};
ghost use Rattle.std.specs.FinMap as map_of;
ghost use Rattle.casebook_patch.specs.Directories.{is_bare, is_file_below, is_unmade};
ghost use Rattle.casebook_patch.specs.Directories.{is_unremoved, unmade_directories};
ghost use Rattle.casebook_patch.specs.Directories.{unremoved_directories};

use crate::NoMem;
use retro_path::Path;
use retro_tree::{Entry, Tree};
use std::alloc::Global;

/// Returns whether an entry is a file at a path or below it.
fn is_file_below(path: &Path, at: &Path, entry: &Entry) -> bool
    ensures { result ≡ is_file_below path.now (at.now, entry.now) }
{
    matches!(entry, Entry::File(_)) && at.starts_with(path)
}

/// Returns whether a tree has a file at a path or below it.
fn has_file_below(tree: &Tree, path: &Path) -> bool
    ensures { result ≡ list_any (is_file_below path.now) (map_of.entries tree.now) }
{
    for (at, entry) in tree.iter() {
        if is_file_below(path, at, entry) {
            return true;
        }
    }
    false
}

/// Returns whether a path is a directory without a file below it.
#[tactic(auto, unfolding(crate::specs::Directories::is_bare, retro_tree::specs::Tree::node_in))]
fn is_bare(tree: &Tree, path: &Path) -> bool
    ensures { result ≡ is_bare tree.now path.now }
{
    matches!(tree.get(path), Some(Entry::Dir)) && !has_file_below(tree, path)
}

/// Returns whether a patch doesn't make a directory that is in the tree after.
fn is_unmade(before: &Tree, after: &Tree, path: &Path) -> bool
    ensures { result ≡ is_unmade before.now after.now path.now }
{
    !path.is_root() && is_bare(after, path) && !is_bare(before, path)
}

/// Returns whether a patch doesn't remove a directory that is missing in the tree after.
#[tactic(auto, unfolding(retro_tree::specs::Tree::node_in))]
fn is_unremoved(before: &Tree, after: &Tree, path: &Path) -> bool
    ensures { result ≡ is_unremoved before.now after.now path.now }
{
    is_bare(before, path) && after.get(path).is_none()
}

/// Returns the directories of the tree after that may be missing once a patch is applied: those that
/// have no file below them, and were missing or had one; never the root. In order of paths. Each
/// directory takes time in proportion to the trees.
pub fn unmade_directories(alloc: Global, before: &Tree, after: &Tree) -> Result<Vec<Path>, NoMem>
    ensures { IfOk result (λ paths. paths.items ≡ unmade_directories before.now after.now) }
{
    let mut paths = Vec::new(alloc);
    for (path, _) in after.iter() {
        if is_unmade(before, after, path) {
            paths.push(path.copy()?)?;
        }
    }
    Ok(paths)
}

/// Returns the directories of the tree before that are left once a patch is applied, but missing in
/// the tree after: those that had no file below them. The directories above these are left too. In
/// order of paths. Each directory takes time in proportion to the trees.
pub fn unremoved_directories(alloc: Global, before: &Tree, after: &Tree) -> Result<Vec<Path>, NoMem>
    ensures { IfOk result (λ paths. paths.items ≡ unremoved_directories before.now after.now) }
{
    let mut paths = Vec::new(alloc);
    for (path, _) in before.iter() {
        if is_unremoved(before, after, path) {
            paths.push(path.copy()?)?;
        }
    }
    Ok(paths)
}
