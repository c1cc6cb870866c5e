//! Trees of files.
ghost use Rattle.std.specs.Prelude.{◌≡◌, ◌↔◌, ◌&&◌, IsTrue, IfOk, OnOk, OnErr, true};
ghost use Rattle.std.specs.Option.{option_copied};
ghost use Rattle.std.specs.FinMap as map;
ghost use Rattle.retro_tree.specs.Path.{parent_of, may_exist};
ghost use Rattle.retro_tree.specs.Node.{bytes_in, is_dir, is_present, kind_of, size_of, permit_at};
ghost use Rattle.retro_tree.specs.Node.{grown};
ghost use Rattle.retro_tree.specs.Tree.{node_in, put, has_child};
ghost use Rattle.retro_tree.specs.Ask.{names_in};
ghost use Rattle.retro_tree.specs.Limits.{files_fit};
ghost use Rattle.retro_tree.specs.Lawful.{IsLawfulTree, may_put, may_grow, is_lawful_tree};
ghost use Rattle.retro_tree.specs.Lawful.{entry_passes};
ghost use Rattle.retro_tree.specs.inner.CommitSteps.{cut_at, keeps_law_at};

use crate::entry::{Entry, FILE_LIMIT};
use crate::entry_map::EntryMap;
use crate::kind::Kind;
use crate::known::Known;
use crate::node::Node;
use crate::permit::Permit;
use retro_path::{Bytes, Listing, NoMem, Path};
use std::alloc::Global;
use std::collections::btree_map::Iter;
use std::marker::Model;

/// A map from paths to directories and files. It may be known to be lawful.
#[derive(Drop, Clone)]
pub struct Tree {
    entries: Known<EntryMap>,
}

impl Model for Tree {
    ghost use Rattle.std.specs.FinMap as map;
    ghost use Rattle.std.specs.Coded.{coded_ℕ, coded_list};
    ghost use Rattle.retro_tree.specs.Order.{path_cmp};
    ghost use Rattle.retro_tree.specs.declared.entry.Entry.{Entry};
    ghost use Rattle.retro_tree.specs.inner.Entry.{coded_entry};

    ghost Value = { map.FinMap path_cmp Entry };

    ghost coded = { map.code (coded_list (coded_list coded_ℕ)) coded_entry };

    ghost use Rattle.retro_tree.specs.inner.Known.{tree_of, TreeIsKnown};

    ghost view = { tree_of };

    ghost invariant = { TreeIsKnown };
}

impl Tree {
    /// Returns a tree without entries, not even for the root.
    pub(crate) fn new(alloc: Global) -> Tree
        ensures { result ≡ map.empty }
    {
        Tree {
            entries: Known::new(EntryMap::new(alloc)),
        }
    }

    /// Returns the entry of a path, or `None` if the path is missing.
    pub fn get(&self, path: &Path) -> Option<&Entry>
        ensures { option_copied result ≡ map.get self.now path.now }
    {
        self.entries.get().get(path)
    }

    /// Puts a node at a path. `Missing` removes what the path holds. A tree that is known to be
    /// lawful stays so if the node may be put there.
    #[tactic(auto, using(crate::proofs::LawLemmas::lawful_put))]
    pub(crate) fn put(&mut self, path: Path, node: Node) -> Result<(), NoMem>
        ensures ok { OnOk result (self.new ≡ put path node self.old) }
        ensures err { OnErr result (self.new ≡ self.old) }
    {
        let lawful = self.is_known_lawful() && self.may_put(&path, &node)?;
        self.entries.change(lawful).put(path, node)
    }

    /// Returns the entries, in order of paths: by their names, and names by their bytes.
    pub fn iter(&self) -> Iter<'_, Path, Entry>
        ensures { result ≡ map.entries self.now }
    {
        self.entries.get().iter()
    }

    /// Returns the names of the children of a path, in byte order, whatever node is at the path
    /// itself. Takes time in proportion to the children times the logarithm of the tree.
    pub fn names(&self, alloc: Global, path: &Path) -> Result<Listing, NoMem>
        ensures { IfOk result (λ names. names ≡ names_in path.now self.now) }
    {
        self.entries.get().names(alloc, path)
    }

    /// Returns whether a path has children. In a lawful tree the first entry below the path
    /// decides.
    pub(crate) fn has_child(&self, path: &Path) -> bool
        ensures { result ≡ has_child path.now self.now }
    {
        self.entries.get().has_child(path)
    }

    /// Returns a copy of the node at a path.
    #[tactic(auto, unfolding(crate::specs::Tree::node_in))]
    pub fn node(&self, path: &Path) -> Result<Node, NoMem>
        ensures { IfOk result (λ node. node ≡ node_in path.now self.now) }
    {
        match self.get(path) {
            None => Ok(Node::Missing),
            Some(Entry::Dir) => Ok(Node::Dir),
            Some(Entry::File(bytes)) => Ok(Node::File(bytes.copy()?)),
        }
    }

    /// Returns the kind of the node at a path.
    #[tactic(auto, unfolding(crate::specs::Tree::node_in))]
    pub fn kind(&self, path: &Path) -> Kind
        ensures { result ≡ kind_of (node_in path.now self.now) }
    {
        match self.get(path) {
            None => Kind::Missing,
            Some(Entry::Dir) => Kind::Dir,
            Some(Entry::File(_)) => Kind::File,
        }
    }

    /// Returns whether a path is a directory.
    #[tactic(auto, unfolding(crate::specs::Tree::node_in))]
    pub(crate) fn is_dir(&self, path: &Path) -> bool
        ensures { result ≡ is_dir (node_in path.now self.now) }
    {
        matches!(self.get(path), Some(Entry::Dir))
    }

    /// Returns the bytes of the file at a path, or `None` if the path isn't a file.
    #[tactic(auto, unfolding(crate::specs::Tree::node_in))]
    pub fn file(&self, path: &Path) -> Option<&Bytes>
        ensures { option_copied result ≡ bytes_in (node_in path.now self.now) }
    {
        match self.get(path) {
            Some(Entry::File(bytes)) => Some(bytes),
            _ => None,
        }
    }

    /// Returns the number of bytes of the file at a path, or 0 if the path isn't a file.
    #[tactic(auto, unfolding(crate::specs::Tree::node_in))]
    pub(crate) fn size(&self, path: &Path) -> usize
        ensures { result ≡ size_of (node_in path.now self.now) }
    {
        match self.get(path) {
            Some(Entry::File(bytes)) => bytes.len(),
            _ => 0,
        }
    }

    /// Returns whether `more` bytes can be appended to the file at a path, and if not, why. Looks
    /// only at the path and at its parent.
    pub(crate) fn permit(&self, path: &Path, parent: &Path, more: u64) -> Permit
        ensures { result ≡
            permit_at (node_in path.now self.now) (node_in parent.now self.now) more }
    {
        Permit::of(self.kind(path), self.size(path), self.kind(parent), more)
    }

    /// Appends bytes to a file, in place. A missing file is created, and a directory stays
    /// unchanged. A tree that is known to be lawful stays so if the file may grow.
    #[tactic(auto, using(crate::proofs::LawLemmas::growing))]
    pub(crate) fn grow(&mut self, path: &Path, bytes: &Bytes) -> Result<(), NoMem>
        ensures ok { OnOk result
            (self.new ≡ put path.now (grown bytes.now (node_in path.now self.old)) self.old) }
        ensures err { OnErr result (self.new ≡ self.old) }
    {
        let lawful = self.is_known_lawful() && self.may_grow(path, bytes)?;
        self.entries.change(lawful).grow(path, bytes)
    }

    /// Returns whether a lawful tree stays lawful with a node at a path. Looks only at the path,
    /// its parent and the first entry below it.
    pub(crate) fn may_put(&self, path: &Path, node: &Node) -> Result<bool, NoMem>
        ensures { IfOk result (λ may. may ≡ may_put path.now node.now self.now) }
    {
        if path.is_root() {
            return Ok(matches!(node, Node::Dir));
        }
        match node {
            Node::Missing => Ok(!self.has_child(path)),
            Node::Dir => Ok(self.has_place_for(path.copy()?)),
            Node::File(bytes) => {
                if bytes.len() as u64 > FILE_LIMIT || self.has_child(path) {
                    return Ok(false);
                }
                Ok(self.has_place_for(path.copy()?))
            }
        }
    }

    /// Returns whether a lawful tree stays lawful with bytes appended to a file. Looks only at the
    /// path and its parent.
    #[tactic(auto, unfolding(crate::specs::Tree::node_in))]
    pub(crate) fn may_grow(&self, path: &Path, bytes: &Bytes) -> Result<bool, NoMem>
        ensures { IfOk result (λ may. may ≡ may_grow path.now bytes.now self.now) }
    {
        if path.is_root() || self.is_dir(path) {
            return Ok(false);
        }
        let more = bytes.len() as u64;
        if more > FILE_LIMIT || self.size(path) as u64 > FILE_LIMIT - more {
            return Ok(false);
        }
        Ok(self.has_place_for(path.copy()?))
    }

    /// Returns whether a node of a lawful size can be at a path: its parent is a directory, and it
    /// isn't at `/dev/null` or below it. Takes no memory: it shortens the path in place to look its
    /// parent up.
    fn has_place_for(&self, path: Path) -> bool
        ensures { result ≡ (is_dir (node_in (parent_of path) self.now) && may_exist path) }
    {
        path.may_exist() && self.is_dir(&path.into_parent())
    }

    /// Returns whether the tree is lawful at a path: the node there is lawful, and nothing is below
    /// it unless it is a directory. Takes no memory.
    #[tactic(auto, unfolding(crate::specs::Tree::node_in))]
    pub(crate) fn keeps_law_at(&self, path: Path) -> bool
        ensures { result ≡ keeps_law_at path self.now }
    {
        if path.is_root() {
            return self.is_dir(&path);
        }
        match self.get(&path) {
            None => !self.has_child(&path),
            Some(Entry::Dir) => self.has_place_for(path),
            Some(Entry::File(bytes)) => {
                let fits = bytes.len() as u64 <= FILE_LIMIT;
                fits && !self.has_child(&path) && self.has_place_for(path)
            }
        }
    }

    /// Returns whether the tree is known to be lawful.
    pub(crate) fn is_known_lawful(&self) -> bool
        ensures { IsTrue result → IsLawfulTree self.now }
    {
        self.entries.is_known()
    }

    /// Marks a lawful tree as known to be lawful.
    pub(crate) fn mark_lawful(&mut self)
        requires { IsLawfulTree self.old }
        ensures { self.new ≡ self.old }
    {
        self.entries.mark(true);
    }

    /// Returns whether the tree is lawful, and remembers it.
    pub(crate) fn validate(&mut self, alloc: Global) -> Result<bool, NoMem>
        ensures exact { IfOk result (λ lawful. IsTrue lawful ↔ IsLawfulTree self.old) }
        ensures unchanged { self.new ≡ self.old }
    {
        let lawful = self.is_lawful(alloc)?;
        self.entries.mark(lawful);
        Ok(lawful)
    }

    /// Returns whether each file is within the limit.
    pub(crate) fn fits(&self) -> bool
        ensures { result ≡ files_fit self.now }
    {
        self.entries.get().fits()
    }

    /// Returns whether the tree is lawful: the root is a directory, as is the parent of each other
    /// path, nothing is at `/dev/null` or below it, and each file is within the limit.
    #[tactic(auto, unfolding(crate::specs::Lawful::is_lawful_tree))]
    pub fn is_lawful(&self, alloc: Global) -> Result<bool, NoMem>
        ensures { IfOk result (λ lawful. lawful ≡ is_lawful_tree self.now) }
    {
        let root = Path::root(alloc);
        if !self.is_dir(&root) {
            return Ok(false);
        }
        for (path, entry) in self.iter() {
            if !self.entry_passes(path, entry)? {
                return Ok(false);
            }
        }
        Ok(true)
    }

    /// Returns whether a lawful tree may hold an entry at a path.
    #[tactic(auto, unfolding(crate::specs::Lawful::entry_passes))]
    fn entry_passes(&self, path: &Path, entry: &Entry) -> Result<bool, NoMem>
        ensures { IfOk result (λ passes. passes ≡ entry_passes self.now (path.now, entry.now)) }
    {
        if path.is_root() {
            return Ok(matches!(entry, Entry::Dir));
        }
        if !entry.fits() {
            return Ok(false);
        }
        Ok(self.has_place_for(path.copy()?))
    }

    /// Puts a directory or a file at a path and returns the previous entry. Forgets whether the
    /// tree is lawful.
    pub(crate) fn exchange(&mut self, path: Path, node: Node) -> Result<Option<Entry>, NoMem>
        requires { is_present node ≡ true }
        ensures previous { IfOk result (λ previous. previous ≡ map.get self.old path) }
        ensures ok { OnOk result (self.new ≡ put path node self.old) }
        ensures err { OnErr result (self.new ≡ self.old) }
    {
        self.entries.change(false).exchange(path, node)
    }

    /// Puts an entry at a path that has one, and forgets whether the tree is lawful. Takes no
    /// memory.
    pub(crate) fn replace(&mut self, path: Path, entry: Entry)
        requires { map.contains_key self.old path ≡ true }
        ensures { self.new ≡ map.insert self.old path entry }
    {
        self.entries.change(false).replace(path, entry);
    }

    /// Shortens the file at a path, if one is there, to `length` bytes, and forgets whether the
    /// tree is lawful. Takes no memory.
    pub(crate) fn cut(&mut self, path: &Path, length: usize)
        ensures { self.new ≡ cut_at path.now length (map.get self.old path.now) self.old }
    {
        self.entries.change(false).cut(path, length);
    }

    /// Removes the entry of a path, and forgets whether the tree is lawful. Takes no memory.
    pub(crate) fn erase(&mut self, path: &Path)
        ensures { self.new ≡ map.remove self.old path.now }
    {
        self.entries.change(false).remove(path);
    }
}
