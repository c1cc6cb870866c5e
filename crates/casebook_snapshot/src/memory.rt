//! A listing in memory, for tests.
ghost use Rattle.std.specs.Prelude.{◌≡◌, ◌∷◌, IfOk, List, OnOk, Some};
ghost use Rattle.casebook_snapshot.specs.Children.{IsListing};
ghost use Rattle.casebook_snapshot.specs.inner.Memories.{AreChildrenBut, contents_of, item_in};
ghost use Rattle.casebook_snapshot.specs.declared.item.Item.{Item};

use crate::NoMem;
use crate::child::Child;
use crate::error::SnapshotError;
use crate::item::Item;
use crate::listing::Listing;
use retro_path::Path;
use std::alloc::Global;

/// A name in a directory, and what is there.
#[derive(Drop)]
pub struct MemoryEntry {
    /// The directory and the name.
    pub child: Child,
    /// What is there.
    pub item: Item,
}

/// A listing in memory.
#[derive(Drop)]
pub struct Memory {
    alloc: Global,
    root: Item,
    entries: Vec<MemoryEntry>,
}

/// Returns what is at a name in a directory by a list of entries, of which the first counts.
#[tactic(auto, using(crate::proofs::Memories::entries))]
fn find_in(entries: &[MemoryEntry], parent: &Path, name: &[u8]) -> Result<Item, NoMem>
    ensures { IfOk result (λ item. item ≡ item_in entries.now parent.now name.now) }
{
    for entry in entries {
        if entry.child.parent == *parent && entry.child.name.as_slice() == name {
            return entry.item.copy();
        }
    }
    Ok(Item::Missing)
}

/// Lists the name of an entry if it is one of a directory at which some entries hold something.
fn list_entry(
    entries: &[MemoryEntry],
    path: &Path,
    entry: &MemoryEntry,
    children: &mut Vec<Child>,
) -> Result<(), NoMem>
    ensures { OnOk result ((root : Item) (es : List MemoryEntry)
        → AreChildrenBut (contents_of root entries.now) path.now (entry.now ∷ es) children.old.items
        → AreChildrenBut (contents_of root entries.now) path.now es children.new.items) }
{
    let is_child = entry.child.parent == *path;
    if !is_child {
        return Ok(());
    }
    let item = find_in(entries, path, entry.child.name.as_slice())?;
    if item.is_missing() {
        return Ok(());
    }
    children.push(entry.child.copy()?)?;
    Ok(())
}

/// Returns the names of a directory at which some entries hold something.
fn names_in(alloc: Global, entries: &[MemoryEntry], path: &Path) -> Result<Vec<Child>, NoMem>
    ensures { IfOk result (λ children. (root : Item) → IsListing
        (contents_of root entries.now) path.now children.items) }
{
    let mut children = Vec::new(alloc);
    for entry in entries {
        list_entry(entries, path, entry, &mut children)?;
    }
    Ok(children)
}

impl Memory {
    /// Makes a listing that holds these entries, and nothing at other paths. The first entry of a
    /// name in a directory counts.
    pub fn new(alloc: Global, root: Item, entries: Vec<MemoryEntry>) -> Memory {
        Memory {
            alloc,
            root,
            entries,
        }
    }

    /// Returns what is at a path.
    fn find(&self, path: &Path) -> Result<Item, NoMem>
        ensures { IfOk result (λ item.
            item ≡ contents_of self.now.root self.now.entries.items path.now) }
    {
        let Some(name) = path.last(self.alloc)? else {
            return self.root.copy();
        };
        let parent = path.parent(self.alloc)?;
        find_in(self.entries.as_slice(), &parent, name.as_str().as_bytes())
    }
}

impl Listing for Memory {
    ghost holds = { λ m. Some (contents_of m.root m.entries.items) };

    fn look(&self, path: &Path) -> Result<Item, SnapshotError> {
        Ok(self.find(path)?)
    }

    fn list(&self, alloc: Global, path: &Path) -> Result<Option<Vec<Child>>, SnapshotError> {
        Ok(Some(names_in(alloc, self.entries.as_slice(), path)?))
    }
}
