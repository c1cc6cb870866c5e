//! Nodes.
ghost use Rattle.std.specs.Prelude.{◌≡◌, ◌↔◌, IfOk, IsTrue, OnOk, OnErr};
ghost use Rattle.retro_tree.specs.Node.{grown, kind_of, size_of};

use crate::kind::Kind;
use retro_path::{Bytes, NoMem};

/// What is at a path.
#[derive(Drop, Clone, PartialEq, Eq)]
pub enum Node {
    /// The path is missing.
    Missing,
    /// A directory.
    Dir,
    /// A file with its bytes.
    File(Bytes),
}

impl Node {
    /// Returns a copy.
    pub fn copy(&self) -> Result<Node, NoMem>
        ensures { IfOk result (λ copy. copy ≡ self.now) }
    {
        self.clone()
    }

    /// Returns whether this is the same node as another.
    #[tactic(auto, using(crate::proofs::Sames::sames))]
    pub(crate) fn is_same(&self, other: &Node) -> bool
        ensures { IsTrue result ↔ (self.now ≡ other.now) }
    {
        match (self, other) {
            (Node::Missing, Node::Missing) | (Node::Dir, Node::Dir) => true,
            (Node::File(x), Node::File(y)) => x == y,
            _ => false,
        }
    }

    /// Returns the kind of the node.
    pub(crate) fn kind(&self) -> Kind
        ensures { result ≡ kind_of self.now }
    {
        match self {
            Node::Missing => Kind::Missing,
            Node::Dir => Kind::Dir,
            Node::File(_) => Kind::File,
        }
    }

    /// Returns the number of bytes of a file, and 0 for other nodes.
    pub(crate) fn size(&self) -> usize
        ensures { result ≡ size_of self.now }
    {
        match self {
            Node::Missing | Node::Dir => 0,
            Node::File(bytes) => bytes.len(),
        }
    }

    /// Appends bytes to a file, in place. A missing node becomes a file, and a directory stays
    /// unchanged.
    pub(crate) fn grow(&mut self, bytes: &Bytes) -> Result<(), NoMem>
        ensures ok { OnOk result (self.new ≡ grown bytes.now self.old) }
        ensures err { OnErr result (self.new ≡ self.old) }
    {
        match self {
            Node::Missing => *self = Node::File(bytes.copy()?),
            Node::Dir => (),
            Node::File(old) => old.extend(bytes.as_slice())?,
        }
        Ok(())
    }
}
