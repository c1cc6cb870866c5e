//! The difference of two trees as a patch.
ghost use Rattle.std.specs.Prelude.{◌≡◌, ◌≢◌, IfOk, map};
ghost use Rattle.std.specs.List.{All};
ghost use Rattle.std.specs.Option.{option_copied};
ghost use Rattle.casebook_changes.specs.ChangedPaths.{AreChangedPaths};
ghost use Rattle.casebook_patch.specs.Changes.{IsChangeOf};
ghost use Rattle.casebook_patch.specs.Trees.{AreChanges, IsChangeBetween, file_at, has_name};
ghost use Rattle.casebook_patch.specs.Trees.{is_carried, paths_where};
ghost use Rattle.casebook_patch.specs.Written.{written_changes};

use crate::NoMem;
use crate::file_change::FileChange;
use crate::written_change::push_change;
use casebook_changes::{ChangedPath, changed_paths};
use retro_path::Path;
use retro_tree::{Entry, Tree};
use std::alloc::Global;

/// Returns the bytes of the file at a path, or `None` if no file is there.
#[tactic(auto, unfolding(retro_tree::specs::Tree::node_in))]
fn file_at<'a>(tree: &'a Tree, path: &Path) -> Option<&'a [u8]>
    ensures { option_copied result ≡ file_at path.now tree.entry.now }
{
    match tree.get(path) {
        Some(Entry::File(bytes)) => Some(bytes.as_slice()),
        Some(Entry::Dir) | None => None,
    }
}

/// Returns whether a patch can name a path.
fn has_name(path: &Path) -> bool
    ensures { result ≡ has_name path.now }
{
    !path.as_str().as_bytes().contains(&0)
}

/// Returns whether a path has a name, and a file in one tree at least.
fn is_carried(before: &Tree, after: &Tree, path: &Path) -> bool
    ensures { result ≡ is_carried before.now after.now path.now }
{
    has_name(path) && (file_at(before, path).is_some() || file_at(after, path).is_some())
}

/// Returns which of these paths have a name, and a file in one tree at least.
fn carried_paths<'a>(
    alloc: Global,
    before: &Tree,
    after: &Tree,
    changed: &'a [ChangedPath],
) -> Result<Vec<&'a Path>, NoMem>
    ensures { IfOk result (λ paths. map (λ path. path.now) paths.items
        ≡ paths_where (is_carried before.now after.now) changed.entry.now) }
{
    let mut paths = Vec::new(alloc);
    for entry in changed {
        if is_carried(before, after, &entry.path) {
            paths.push(&entry.path)?;
        }
    }
    Ok(paths)
}

/// Returns the changes of files at these paths.
fn changes_at<'a>(
    alloc: Global,
    before: &'a Tree,
    after: &'a Tree,
    paths: &[&Path],
) -> Result<Vec<FileChange<'a>>, NoMem>
    requires { All (λ path. file_at path.now before.now ≢ file_at path.now after.now) paths.now }
    ensures paths { IfOk result (λ changes. map (λ c. c.path) changes.items
        ≡ map (λ path. path.now) paths.now) }
    ensures each { IfOk result (λ changes.
        All (IsChangeBetween before.entry.now after.entry.now) changes.items) }
{
    let mut changes = Vec::new(alloc);
    for path in paths {
        let old = file_at(before, path);
        let new = file_at(after, path);
        changes.push(FileChange::of(alloc, path.copy()?, old, new)?)?;
    }
    Ok(changes)
}

/// Returns the changes of the files that differ between two trees, in order of paths. Files whose
/// paths have a NUL are left out. Directories have no changes. The cost is that of the diffs of the
/// files that differ.
pub fn file_changes<'a>(
    alloc: Global,
    before: &'a Tree,
    after: &'a Tree,
) -> Result<Vec<FileChange<'a>>, NoMem>
    ensures { IfOk result (λ changes. AreChanges before.entry.now after.entry.now changes.items) }
{
    let changed = changed_paths(alloc, before, after)?;
    let paths = carried_paths(alloc, before, after, changed.as_slice())?;
    changes_at(alloc, before, after, paths.as_slice())
}

/// Returns changes as a patch in git's form.
pub fn patch_of(alloc: Global, changes: &[FileChange<'_>]) -> Result<Vec<u8>, NoMem>
    ensures { IfOk result (λ patch. patch.items ≡ written_changes changes.now) }
{
    let mut patch = Vec::new(alloc);
    for change in changes {
        push_change(alloc, &mut patch, change)?;
    }
    Ok(patch)
}
