//! A folder in memory, for tests.
ghost use Rattle.std.specs.Prelude.{◌≡◌, ◌↔◌, IfOk, IsTrue, Some, map};
ghost use Rattle.std.specs.List.{list_any};
ghost use Rattle.retro_path.specs.Order.{text_eq};
ghost use Rattle.casebook_folder.specs.inner.Memory.{at_after, contents_of, has_path};
ghost use Rattle.casebook_folder.specs.Made.{step_of};

use crate::NoMem;
use crate::folder::Folder;
use crate::folder_error::FolderError;
use crate::found::Found;
use crate::made_step::{MadeStep, push_step};
use retro_path::{Listing, Name, Path};
use std::alloc::Global;
use std::collections::BTreeSet;

/// A path, and what is there.
#[derive(Drop)]
pub struct Entry {
    /// The path.
    pub path: Path,
    /// What is there.
    pub found: Found,
}

/// A folder in memory. It keeps what it held at first, each step, and beside which paths stopped
/// steps left a part of a new node.
#[derive(Drop)]
pub struct Memory {
    alloc: Global,
    first: Vec<Entry>,
    made: Vec<MadeStep>,
    parts: BTreeSet<Path>,
    puts_left: usize,
    makes_the_last: bool,
}

/// Returns what is at a path by a list of entries, of which the first of a path counts.
#[tactic(auto, using(crate::proofs::Memories::contents))]
fn found_in(entries: &[Entry], path: &Path) -> Result<Found, NoMem>
    ensures { IfOk result (λ found. found ≡ contents_of entries.now path.now) }
{
    for entry in entries {
        if entry.path == *path {
            return entry.found.copy();
        }
    }
    Ok(Found::Missing)
}

/// Returns what is at a path after some steps, by what was there before.
#[tactic(auto, using(crate::proofs::Memories::after_next))]
fn found_after(made: &[MadeStep], path: &Path, before: Found) -> Result<Found, NoMem>
    ensures { IfOk result (λ found. found ≡ at_after (map step_of made.now) path.now before) }
{
    let mut found = before;
    for step in made {
        if step.path == *path {
            found = step.after.copy()?;
        }
    }
    Ok(found)
}

/// Returns whether a name is among some names.
fn has_name(names: &[Name], name: &Name) -> bool
    ensures { result ≡ list_any (text_eq name.now) names.now }
{
    names.iter().any(|other| name == other)
}

impl Memory {
    ghost use Rattle.casebook_folder.specs.Steps.{HasOtherChild, after_steps};
    ghost use Rattle.casebook_folder.specs.inner.Memory.{entry_path, is_other, made_path};

    /// Makes a folder that holds these entries, and nothing at other paths. The first entry of a
    /// path counts. Each step succeeds.
    pub fn new(alloc: Global, first: Vec<Entry>) -> Memory {
        Memory {
            alloc,
            first,
            made: Vec::new(alloc),
            parts: BTreeSet::new(alloc),
            puts_left: usize::MAX,
            makes_the_last: false,
        }
    }

    /// Lets so many steps succeed. The one after them fails, and is made or not. If it isn't made,
    /// it leaves a part of its new node.
    pub fn stop_after(&mut self, puts: usize, makes_the_last: bool) {
        self.puts_left = puts;
        self.makes_the_last = makes_the_last;
    }

    /// Returns the number of steps that were made.
    pub fn steps(&self) -> usize {
        self.made.len()
    }

    /// Returns the number of paths beside which stopped steps left a part of a new node.
    pub fn parts(&self) -> usize {
        self.parts.len()
    }

    /// Returns what is at a path.
    #[tactic(auto, using(crate::proofs::Memories::after_at))]
    fn find(&self, path: &Path) -> Result<Found, NoMem>
        ensures { IfOk result (λ found. found ≡ after_steps (map step_of self.now.made.items)
            (contents_of self.now.first.items) path.now) }
    {
        let before = found_in(self.first.as_slice(), path)?;
        found_after(self.made.as_slice(), path, before)
    }

    /// Returns whether a directory has a child whose name isn't among some names.
    fn has_child_besides(&self, path: &Path, names: &Listing) -> Result<bool, NoMem>
        ensures { IfOk result (λ other. IsTrue other ↔ HasOtherChild (after_steps
            (map step_of self.now.made.items) (contents_of self.now.first.items))
            path.now names.now) }
    {
        let at_first = self.has_other(self.first.as_slice(), path, names)?;
        let since = self.has_other_made(self.made.as_slice(), path, names)?;
        Ok(at_first || since)
    }

    /// Returns whether one of some entries is of a child that is there and isn't among some names.
    fn has_other(&self, entries: &[Entry], path: &Path, names: &Listing) -> Result<bool, NoMem>
        ensures { IfOk result (λ other. other ≡ list_any (is_other (after_steps
            (map step_of self.now.made.items) (contents_of self.now.first.items))
            path.now names.now) (map entry_path entries.now)) }
    {
        for entry in entries {
            if self.is_other(&entry.path, path, names)? {
                return Ok(true);
            }
        }
        Ok(false)
    }

    /// Returns whether one of some steps is at a child that is there and isn't among some names.
    fn has_other_made(&self, made: &[MadeStep], path: &Path, names: &Listing) -> Result<bool, NoMem>
        ensures { IfOk result (λ other. other ≡ list_any (is_other (after_steps
            (map step_of self.now.made.items) (contents_of self.now.first.items))
            path.now names.now) (map made_path made.now)) }
    {
        for step in made {
            if self.is_other(&step.path, path, names)? {
                return Ok(true);
            }
        }
        Ok(false)
    }

    /// Returns whether a path is that of a child that is there and isn't among some names.
    fn is_other(&self, at: &Path, path: &Path, names: &Listing) -> Result<bool, NoMem>
        ensures { IfOk result (λ other. other ≡ is_other (after_steps
            (map step_of self.now.made.items) (contents_of self.now.first.items))
            path.now names.now at.now) }
    {
        let Some(name) = at.child_name(self.alloc, path)? else {
            return Ok(false);
        };
        if has_name(names.names(), &name) {
            return Ok(false);
        }
        Ok(!self.find(at)?.is_missing())
    }
}

impl Folder for Memory {
    ghost first = { λ m. Some (contents_of m.first.items) };

    ghost made = { λ m. map step_of m.made.items };

    ghost parts = { λ m q. has_path q m.parts.keys };

    fn look(&self, path: &Path) -> Result<Found, FolderError> {
        Ok(self.find(path)?)
    }

    fn has_other_child(&self, path: &Path, names: &Listing) -> Result<bool, FolderError> {
        Ok(self.has_child_besides(path, names)?)
    }

    fn put(&mut self, path: &Path, before: &Found, after: &Found) -> Result<(), FolderError> {
        if !self.find(path)?.is_same(before) {
            return Err(FolderError::Changed);
        }
        if self.puts_left == 0 {
            if self.makes_the_last {
                push_step(&mut self.made, path, before, after)?;
            } else {
                self.parts.insert(path.copy()?)?;
            }
            return Err(FolderError::Failed);
        }
        push_step(&mut self.made, path, before, after)?;
        self.parts.remove(path);
        self.puts_left -= 1;
        Ok(())
    }

    fn clear(&mut self, path: &Path) -> Result<(), FolderError> {
        self.parts.remove(path);
        Ok(())
    }
}
