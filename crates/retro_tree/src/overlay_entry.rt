//! Entries of an overlay.
ghost use Rattle.std.specs.Prelude.{◌≡◌, IfOk, OnOk, OnErr};
ghost use Rattle.retro_tree.specs.Overlay.{overlay_entry_grown};
ghost use Rattle.retro_tree.specs.inner.CommitSteps.{removes};
ghost use Rattle.retro_tree.specs.inner.Marks.{mark_of};

use crate::node::Node;
use crate::value::Value;
use retro_path::{Bytes, NoMem};

/// An overlay's entry for a cell.
#[derive(Drop, Clone, PartialEq, Eq)]
pub enum OverlayEntry {
    /// The value of the cell.
    Value(Value),
    /// Bytes that are appended to the view's file. A missing file is created, and anything else
    /// stays unchanged.
    Growth(Bytes),
}

impl OverlayEntry {
    /// Returns a copy.
    pub fn copy(&self) -> Result<OverlayEntry, NoMem>
        ensures { IfOk result (λ copy. copy ≡ self.now) }
    {
        self.clone()
    }

    /// Appends bytes, in place.
    pub(crate) fn grow(&mut self, bytes: &Bytes) -> Result<(), NoMem>
        ensures ok { OnOk result (self.new ≡ overlay_entry_grown bytes.now self.old) }
        ensures err { OnErr result (self.new ≡ self.old) }
    {
        match self {
            OverlayEntry::Value(value) => value.grow(bytes),
            OverlayEntry::Growth(old) => old.extend(bytes.as_slice()),
        }
    }

    /// Returns whether the entry removes a node or unsets a variable.
    pub(crate) fn removes(&self) -> bool
        ensures { result ≡ removes self.now }
    {
        matches!(
            self,
            OverlayEntry::Value(Value::Node(Node::Missing) | Value::Text(None))
        )
    }

    /// Returns what the entry of a child's cell says of the child: a directory if the child exists,
    /// and a missing node if it doesn't. Returns `None` if the entry isn't of a path.
    pub(crate) fn mark(&self) -> Option<Node>
        ensures { result ≡ mark_of self.now }
    {
        match self {
            OverlayEntry::Value(Value::Node(Node::Missing)) => Some(Node::Missing),
            OverlayEntry::Value(Value::Node(Node::Dir | Node::File(_))) | OverlayEntry::Growth(_) =>
                Some(Node::Dir),
            OverlayEntry::Value(Value::Cwd(_) | Value::Text(_) | Value::Status(_)) => None,
        }
    }
}
