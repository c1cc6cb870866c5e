//! Sets of paths.
ghost use Rattle.std.specs.Prelude.{◌≡◌, [], ◌||◌, ◌&&◌, IfOk, OnOk, not};
ghost use Rattle.std.specs.List.{list_any};
ghost use Rattle.std.specs.List.Sorted.{IsStrictlySortedBy};
ghost use Rattle.std.specs.Option.{option_copied};
ghost use Rattle.retro_tree.specs.Order.{path_cmp, path_eq};
ghost use Rattle.retro_tree.specs.Path.{PathValue};
ghost use Rattle.casebook_cause.specs.Cause.{notes_of};
ghost use Rattle.casebook_summary.specs.Doubts.{writes_to};
ghost use Rattle.casebook_summary.specs.inner.PathSets.{has_path};

use crate::NoMem;
use casebook_view::written_path;
use retro_keep::Noted;
use retro_tree::{Note, Path};
use std::alloc::Global;
use std::collections::BTreeSet;

/// A set of paths.
#[derive(Drop)]
pub(crate) struct PathSet {
    paths: BTreeSet<Path>,
}

impl PathSet {
    /// Returns no paths. Takes no memory.
    pub(crate) fn new(alloc: Global) -> PathSet
        ensures { result.paths.keys ≡ [] }
    {
        PathSet {
            paths: BTreeSet::new(alloc),
        }
    }

    /// Adds a path. Copies it only if it is new.
    fn add(&mut self, path: &Path) -> Result<(), NoMem>
        ensures { OnOk result ((p : PathValue) → has_path p self.new.paths.keys
            ≡ (has_path p self.old.paths.keys || path_eq p path.now)) }
    {
        if !self.paths.contains(path) {
            self.paths.insert(path.copy()?)?;
        }
        Ok(())
    }

    /// Adds the path to which a note writes, if it writes to one.
    fn add_written(&mut self, note: &Note) -> Result<(), NoMem>
        ensures { OnOk result ((p : PathValue) → has_path p self.new.paths.keys
            ≡ (has_path p self.old.paths.keys || writes_to p note.now)) }
    {
        match written_path(note) {
            Some((_kind, path)) => self.add(path),
            None => Ok(()),
        }
    }

    /// Adds the paths to which notes write.
    fn add_notes(&mut self, notes: &[Note]) -> Result<(), NoMem>
        ensures { OnOk result ((p : PathValue) → has_path p self.new.paths.keys
            ≡ (has_path p self.old.paths.keys || list_any (writes_to p) notes.now)) }
    {
        for note in notes {
            self.add_written(note)?;
        }
        Ok(())
    }

    /// Adds the paths to which a line writes, if there is one.
    pub(crate) fn add_line(&mut self, line: Option<&Noted>) -> Result<(), NoMem>
        ensures { OnOk result ((p : PathValue) → has_path p self.new.paths.keys
            ≡ (has_path p self.old.paths.keys
            || list_any (writes_to p) (notes_of (option_copied line.entry)))) }
    {
        match line {
            Some(noted) => self.add_notes(noted.notes.as_slice()),
            None => Ok(()),
        }
    }

    /// Removes a path, if it is in the set.
    pub(crate) fn remove(&mut self, path: &Path)
        ensures { (p : PathValue) → has_path p self.new.paths.keys
            ≡ (has_path p self.old.paths.keys && not (path_eq p path.now)) }
    {
        self.paths.remove(path);
    }

    /// Returns whether a path is in the set.
    pub(crate) fn contains(&self, path: &Path) -> bool
        ensures { result ≡ has_path path.now self.now.paths.keys }
    {
        self.paths.contains(path)
    }

    /// Returns the paths, in order.
    pub(crate) fn into_paths(self, alloc: Global) -> Result<Vec<Path>, NoMem>
        ensures items { IfOk result (λ found. found.items ≡ self.paths.keys) }
        ensures sorted { IfOk result (λ found. IsStrictlySortedBy path_cmp found.items) }
    {
        self.paths.into_iter().collect(alloc)
    }
}
