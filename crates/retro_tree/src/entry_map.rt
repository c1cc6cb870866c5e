//! The entries of a tree.
ghost use Rattle.std.specs.Prelude.{◌≡◌, IfOk, OnOk, OnErr, None, true};
ghost use Rattle.std.specs.Option.{option_copied};
ghost use Rattle.std.specs.FinMap as map;
ghost use Rattle.retro_tree.specs.Node.{grown, is_present};
ghost use Rattle.retro_tree.specs.Tree.{node_in, put, has_child, entries_from};
ghost use Rattle.retro_tree.specs.Ask.{names_in};
ghost use Rattle.retro_tree.specs.Limits.{files_fit};
ghost use Rattle.retro_tree.specs.inner.CommitSteps.{cut_at};

use crate::entry::Entry;
use crate::node::Node;
use retro_path::{Bytes, Listing, NoMem, Path};
use std::alloc::Global;
use std::collections::BTreeMap;
use std::collections::btree_map::{Iter, Range};
use std::marker::Model;

/// The entries of a tree, by their paths. They know nothing of the law.
#[derive(Drop, Clone)]
pub(crate) struct EntryMap {
    entries: BTreeMap<Path, Entry>,
}

impl Model for EntryMap {
    ghost use Rattle.std.specs.FinMap as map;
    ghost use Rattle.std.specs.Coded.{coded_ℕ, coded_list};
    ghost use Rattle.retro_tree.specs.Order.{path_cmp};
    ghost use Rattle.retro_tree.specs.declared.entry.Entry.{Entry};
    ghost use Rattle.retro_tree.specs.inner.Entry.{coded_entry};

    ghost Value = { map.FinMap path_cmp Entry };

    ghost coded = { map.code (coded_list (coded_list coded_ℕ)) coded_entry };

    ghost view = { λ a. map.from_entries a.entries.entries };
}

impl EntryMap {
    /// Returns no entries.
    pub(crate) fn new(alloc: Global) -> EntryMap
        ensures { result ≡ map.empty }
    {
        EntryMap {
            entries: BTreeMap::new(alloc),
        }
    }

    /// Returns the entry of a path, or `None` if the path is missing.
    pub(crate) fn get(&self, path: &Path) -> Option<&Entry>
        ensures { option_copied result ≡ map.get self.now path.now }
    {
        self.entries.get(path)
    }

    /// Puts an entry at a path and returns the previous one. Takes no memory if the path has an
    /// entry.
    pub(crate) fn insert(&mut self, path: Path, entry: Entry) -> Result<Option<Entry>, NoMem>
        ensures previous { IfOk result (λ previous. previous ≡ map.get self.old path) }
        ensures ok { OnOk result (self.new ≡ map.insert self.old path entry) }
        ensures err { OnErr result (self.new ≡ self.old) }
        ensures absent { OnErr result (map.get self.old path ≡ None) }
    {
        Ok(self.entries.insert(path, entry)?)
    }

    /// Puts a directory or a file at a path and returns the previous entry. Takes no memory if the
    /// path has an entry.
    pub(crate) fn exchange(&mut self, path: Path, node: Node) -> Result<Option<Entry>, NoMem>
        requires { is_present node ≡ true }
        ensures previous { IfOk result (λ previous. previous ≡ map.get self.old path) }
        ensures ok { OnOk result (self.new ≡ put path node self.old) }
        ensures err { OnErr result (self.new ≡ self.old) }
    {
        let entry = match node {
            Node::Missing => unreachable!(),
            Node::Dir => Entry::Dir,
            Node::File(bytes) => Entry::File(bytes),
        };
        self.insert(path, entry)
    }

    /// Puts an entry at a path that has one. Takes no memory.
    pub(crate) fn replace(&mut self, path: Path, entry: Entry)
        requires { map.contains_key self.old path ≡ true }
        ensures { self.new ≡ map.insert self.old path entry }
    {
        match self.insert(path, entry) {
            Ok(_) => (),
            Err(_) => unreachable!(),
        }
    }

    /// Removes the entry of a path, if it has one. Takes no memory.
    pub(crate) fn remove(&mut self, path: &Path)
        ensures { self.new ≡ map.remove self.old path.now }
    {
        self.entries.remove(path);
    }

    /// Puts a node at a path. `Missing` removes what the path holds.
    pub(crate) fn put(&mut self, path: Path, node: Node) -> Result<(), NoMem>
        ensures ok { OnOk result (self.new ≡ put path node self.old) }
        ensures err { OnErr result (self.new ≡ self.old) }
    {
        let entry = match node {
            Node::Missing => {
                self.remove(&path);
                return Ok(());
            }
            Node::Dir => Entry::Dir,
            Node::File(bytes) => Entry::File(bytes),
        };
        self.insert(path, entry)?;
        Ok(())
    }

    /// Appends bytes to a file, in place. A missing file is created, and a directory stays
    /// unchanged.
    pub(crate) fn grow(&mut self, path: &Path, bytes: &Bytes) -> Result<(), NoMem>
        ensures ok { OnOk result
            (self.new ≡ put path.now (grown bytes.now (node_in path.now self.old)) self.old) }
        ensures err { OnErr result (self.new ≡ self.old) }
    {
        if let Some(entry) = self.entries.get_mut(path) {
            return entry.grow(bytes);
        }
        let path = path.copy()?;
        let bytes = bytes.copy()?;
        self.insert(path, Entry::File(bytes))?;
        Ok(())
    }

    /// Shortens the file at a path, if one is there, to `length` bytes. Takes no memory.
    pub(crate) fn cut(&mut self, path: &Path, length: usize)
        ensures { self.new ≡ cut_at path.now length (map.get self.old path.now) self.old }
    {
        if let Some(entry) = self.entries.get_mut(path) {
            entry.cut(length);
        }
    }

    /// Returns the entries, in order of paths: by their names, and names by their bytes.
    pub(crate) fn iter(&self) -> Iter<'_, Path, Entry>
        ensures { result ≡ map.entries self.now }
    {
        self.entries.iter()
    }

    /// Returns the entries of a path and of the paths after it, in order.
    fn from(&self, path: &Path) -> Range<'_, Path, Entry>
        ensures { result ≡ entries_from path.now self.now }
    {
        self.entries.range(path..)
    }

    /// Returns the names of the children of a path, in byte order, whatever node is at the path
    /// itself. Seeks past what is below a child, so it takes time in proportion to the children
    /// times the logarithm of the tree. Only what is below a child with a name of 255 bytes is
    /// visited.
    pub(crate) fn names(&self, alloc: Global, path: &Path) -> Result<Listing, NoMem>
        ensures { IfOk result (λ names. names ≡ names_in path.now self.now) }
    {
        let mut names = Vec::new(alloc);
        let mut rest = self.from(path);
        while let Some((other, _)) = rest.next() {
            if !other.starts_with(path) {
                break;
            }
            if let Some(name) = other.child_name(alloc, path)? {
                names.push(name)?;
            } else if let Some(after) = other.after_child(alloc, path)? {
                rest = self.from(&after);
            }
        }
        Ok(Listing::of(names))
    }

    /// Returns whether a path has children. In a lawful tree the first entry below the path
    /// decides.
    pub(crate) fn has_child(&self, path: &Path) -> bool
        ensures { result ≡ has_child path.now self.now }
    {
        for (other, _) in self.from(path) {
            if !other.starts_with(path) {
                return false;
            }
            if other.is_child_of(path) {
                return true;
            }
        }
        false
    }

    /// Returns whether each file is within the limit.
    #[tactic(auto, unfolding(crate::specs::Limits::files_fit))]
    pub(crate) fn fits(&self) -> bool
        ensures { result ≡ files_fit self.now }
    {
        for (_, entry) in self.iter() {
            if !entry.fits() {
                return false;
            }
        }
        true
    }
}
