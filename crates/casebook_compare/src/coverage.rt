//! The paths of which a snapshot tells what a folder holds there.
ghost use Rattle.std.specs.Prelude.{◌≡◌, ◌||◌, IfOk, OnOk};
ghost use Rattle.std.specs.List.{filter, list_any};
ghost use Rattle.retro_tree.specs.Path.{PathValue, prefixes_of};
ghost use Rattle.casebook_compare.specs.Coverage.{is_covered, is_listed, is_skipped_as};
ghost use Rattle.casebook_compare.specs.inner.PathSets.{has_path, is_covered_by};

use crate::NoMem;
use casebook_changes::ChangedPath;
use casebook_snapshot::{ChildPath, SkippedPath};
use retro_tree::Path;
use std::alloc::Global;
use std::collections::BTreeSet;

/// The paths of which a snapshot tells what a folder holds there: those at or below the path at
/// which the folder is put, but for what is skipped and what is below it.
#[derive(Drop)]
pub(crate) struct Coverage<'a> {
    /// Where the folder is put.
    at: &'a Path,
    /// The paths that are skipped. A name that no path has is left out.
    skipped: BTreeSet<Path>,
}

/// Adds a path that is skipped, unless no path has its name.
fn add_skipped(
    alloc: Global,
    paths: &mut BTreeSet<Path>,
    skipped: &SkippedPath,
) -> Result<(), NoMem>
    ensures { OnOk result ((p : PathValue) → has_path p paths.new.keys
        ≡ (has_path p paths.old.keys || is_skipped_as p skipped.now)) }
{
    match skipped.child.path(alloc)? {
        ChildPath::Is(path) => {
            paths.insert(path)?;
            Ok(())
        }
        ChildPath::Never(_) => Ok(()),
    }
}

/// Returns the paths that are skipped, without the names that no path has.
fn skipped_paths(alloc: Global, skipped: &[SkippedPath]) -> Result<BTreeSet<Path>, NoMem>
    ensures { IfOk result (λ paths. (p : PathValue) → has_path p paths.keys
        ≡ is_listed skipped.now p) }
{
    let mut paths = BTreeSet::new(alloc);
    for one in skipped {
        add_skipped(alloc, &mut paths, one)?;
    }
    Ok(paths)
}

impl<'a> Coverage<'a> {
    /// Returns the paths of which a snapshot tells something that has skipped some, of a folder
    /// that is put at a path.
    pub(crate) fn of(
        alloc: Global,
        at: &'a Path,
        skipped: &[SkippedPath],
    ) -> Result<Coverage<'a>, NoMem>
        ensures at { IfOk result (λ coverage. coverage.at.now ≡ at.now) }
        ensures skipped { IfOk result (λ coverage. (p : PathValue)
            → has_path p coverage.skipped.keys ≡ is_listed skipped.now p) }
    {
        let skipped = skipped_paths(alloc, skipped)?;
        Ok(Coverage { at, skipped })
    }

    /// Returns whether a path or a directory above it is skipped.
    fn is_left_out(&self, alloc: Global, path: &Path) -> Result<bool, NoMem>
        ensures { IfOk result (λ yes. yes
            ≡ list_any (λ p. has_path p self.now.skipped.keys) (prefixes_of path.now)) }
    {
        let prefixes = path.prefixes(alloc)?;
        Ok(prefixes.iter().any(|prefix| self.skipped.contains(prefix)))
    }

    /// Returns whether a path is one of them.
    fn covers(&self, alloc: Global, path: &Path) -> Result<bool, NoMem>
        ensures { IfOk result (λ yes. yes
            ≡ is_covered_by self.now.at.now self.now.skipped.keys path.now) }
    {
        if path.starts_with(self.at) {
            Ok(!self.is_left_out(alloc, path)?)
        } else {
            Ok(false)
        }
    }

    /// Returns those of some changed paths that are among them.
    pub(crate) fn covered(
        &self,
        alloc: Global,
        changed: Vec<ChangedPath>,
    ) -> Result<Vec<ChangedPath>, NoMem>
        ensures { IfOk result (λ kept. kept.items ≡ filter
            (λ c. is_covered_by self.now.at.now self.now.skipped.keys c.path) changed.items) }
    {
        let mut kept = Vec::new(alloc);
        for one in changed {
            if self.covers(alloc, &one.path)? {
                kept.push(one)?;
            }
        }
        Ok(kept)
    }
}
