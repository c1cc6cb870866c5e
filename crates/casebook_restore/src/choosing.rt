//! The paths that are restored.
ghost use Rattle.std.specs.Prelude.{◌≡◌, ◌&&◌, IfOk, count_by, map, not};
ghost use Rattle.std.specs.List.{filter, list_any};
ghost use Rattle.retro_tree.specs.Node.{is_dir};
ghost use Rattle.retro_tree.specs.Tree.{node_in};
ghost use Rattle.casebook_changes.specs.ChangedPaths.{path_in};
ghost use Rattle.casebook_restore.specs.Choices.{chooses, is_asked, is_chosen, is_inside};
ghost use Rattle.casebook_restore.specs.Choices.{is_left_out, is_missed, is_outside, is_unkept};
ghost use Rattle.casebook_restore.specs.Choices.{is_wanted, unkept_at};

use crate::NoMem;
use crate::task::UnkeptPath;
use casebook_changes::ChangedPath;
use casebook_opaque::is_opaque;
use retro_path::Path;
use retro_tree::{Entry, Tree};
use std::alloc::Global;

/// Which paths are restored of those in which a tree differs from its repair.
#[derive(Clone, Copy)]
pub(crate) struct Choice<'a> {
    /// The tree as it is repaired.
    pub(crate) repaired: &'a Tree,
    /// Where the folder is in the trees.
    pub(crate) at: &'a Path,
    /// The chosen paths. If there are none, all are chosen.
    pub(crate) only: &'a [Path],
}

/// Returns whether a tree has a directory at a path.
#[tactic(auto, unfolding(retro_tree::specs::Tree::node_in))]
fn has_dir(tree: &Tree, path: &Path) -> bool
    ensures { result ≡ is_dir (node_in path.now tree.now) }
{
    matches!(tree.get(path), Some(Entry::Dir))
}

/// Returns whether a tree has at a path what stands for something that isn't kept.
#[tactic(auto, unfolding(retro_tree::specs::Tree::node_in))]
fn is_unkept(tree: &Tree, path: &Path) -> bool
    ensures { result ≡ is_unkept tree.now path.now }
{
    match tree.get(path) {
        Some(Entry::File(bytes)) => is_opaque(bytes.as_slice()),
        _ => false,
    }
}

impl Choice<'_> {
    /// Returns whether a path is below the folder's.
    fn is_inside(&self, path: &Path) -> bool
        ensures { result ≡ is_inside self.now.at.now path.now }
    {
        match path.strip_prefix(self.at) {
            Some(mut names) => names.next().is_some(),
            None => false,
        }
    }

    /// Returns whether a given path chooses another: itself, what is below it, and the directories
    /// of the repaired tree that it is in.
    fn chooses(&self, given: &Path, path: &Path) -> bool
        ensures { result ≡ chooses self.now.repaired.now path.now given.now }
    {
        path.starts_with(given) || (given.starts_with(path) && has_dir(self.repaired, path))
    }

    /// Returns whether a given path chooses a path.
    fn is_given(&self, path: &Path) -> bool
        ensures { result
            ≡ list_any (chooses self.now.repaired.now path.now) self.now.only.now }
    {
        self.only.iter().any(|given| self.chooses(given, path))
    }

    /// Returns whether a path is chosen.
    fn is_chosen(&self, path: &Path) -> bool
        ensures { result ≡ is_chosen self.now.repaired.now self.now.only.now path.now }
    {
        match self.only {
            [] => true,
            [_, ..] => self.is_given(path),
        }
    }

    /// Returns whether a path is to be restored.
    fn is_asked(&self, path: &Path) -> bool
        ensures { result
            ≡ is_asked self.now.repaired.now self.now.at.now self.now.only.now path.now }
    {
        self.is_inside(path) && self.is_chosen(path)
    }

    /// Returns whether a path is restored.
    fn is_wanted(&self, path: &Path) -> bool
        ensures { result
            ≡ is_wanted self.now.repaired.now self.now.at.now self.now.only.now path.now }
    {
        self.is_asked(path) && !is_unkept(self.repaired, path)
    }

    /// Returns whether a path is to be restored, and can't be.
    fn is_missed(&self, path: &ChangedPath) -> bool
        ensures { result ≡ is_missed self.now.repaired.now self.now.at.now self.now.only.now
            path.now }
    {
        self.is_asked(&path.path) && is_unkept(self.repaired, &path.path)
    }

    /// Returns how many of some changed paths aren't below the folder's.
    pub(crate) fn count_outside(&self, changed: &[ChangedPath]) -> usize
        ensures { result ≡ count_by (is_outside self.now.at.now) changed.now }
    {
        changed
            .iter()
            .filter(|one| !self.is_inside(&one.path))
            .count()
    }

    /// Returns how many of some changed paths are below the folder's and not chosen.
    pub(crate) fn count_left_out(&self, changed: &[ChangedPath]) -> usize
        ensures { result ≡ count_by (is_left_out self.now.repaired.now self.now.at.now
            self.now.only.now) changed.now }
    {
        changed
            .iter()
            .filter(|one| self.is_inside(&one.path) && !self.is_chosen(&one.path))
            .count()
    }

    /// Returns those of some changed paths that are to be restored and can't be, with what is
    /// repaired there.
    pub(crate) fn unkept(
        &self,
        alloc: Global,
        changed: &[ChangedPath],
    ) -> Result<Vec<UnkeptPath>, NoMem>
        ensures { IfOk result (λ found. found.items ≡ map (unkept_at self.now.repaired.now)
            (filter (is_missed self.now.repaired.now self.now.at.now self.now.only.now)
            changed.now)) }
    {
        let mut found = Vec::new(alloc);
        for one in changed {
            if self.is_missed(one) {
                let path = one.path.copy()?;
                let node = self.repaired.node(&one.path)?;
                found.push(UnkeptPath { path, node })?;
            }
        }
        Ok(found)
    }

    /// Returns those of some changed paths that are restored.
    pub(crate) fn wanted(
        &self,
        alloc: Global,
        changed: Vec<ChangedPath>,
    ) -> Result<Vec<Path>, NoMem>
        ensures { IfOk result (λ paths. paths.items ≡ map path_in (filter
            (λ c. is_wanted self.now.repaired.now self.now.at.now self.now.only.now c.path)
            changed.items)) }
    {
        let mut paths = Vec::new(alloc);
        for one in changed {
            if self.is_wanted(&one.path) {
                paths.push(one.path)?;
            }
        }
        Ok(paths)
    }
}
