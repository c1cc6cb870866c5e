//! The values of cells.
ghost use Rattle.std.specs.Prelude.{◌≡◌, ◌↔◌, IfOk, IsTrue, OnOk, OnErr};
ghost use Rattle.retro_tree.specs.Change.{value_grown};

use crate::node::Node;
use retro_path::{Bytes, NoMem, Path, Text};

/// The value of a cell, by the cell's kind.
#[derive(Drop, Clone, PartialEq, Eq)]
pub enum Value {
    /// The node at a path.
    Node(Node),
    /// A session's directory.
    Cwd(Path),
    /// A variable's value, or `None` if it isn't set.
    Text(Option<Text>),
    /// A session's status.
    Status(u8),
}

impl Value {
    /// Returns a copy.
    pub fn copy(&self) -> Result<Value, NoMem>
        ensures { IfOk result (λ copy. copy ≡ self.now) }
    {
        self.clone()
    }

    /// Returns whether this is the same value as another.
    #[tactic(auto, using(crate::proofs::Sames::sames))]
    pub fn is_same(&self, other: &Value) -> bool
        ensures { IsTrue result ↔ (self.now ≡ other.now) }
    {
        match (self, other) {
            (Value::Node(x), Value::Node(y)) => x.is_same(y),
            (Value::Cwd(x), Value::Cwd(y)) => x == y,
            (Value::Text(None), Value::Text(None)) => true,
            (Value::Text(Some(x)), Value::Text(Some(y))) => x == y,
            (Value::Status(x), Value::Status(y)) => *x == *y,
            _ => false,
        }
    }

    /// Appends bytes to a file, in place. A missing node becomes a file. A directory and a value of
    /// another kind stay unchanged.
    pub fn grow(&mut self, bytes: &Bytes) -> Result<(), NoMem>
        ensures ok { OnOk result (self.new ≡ value_grown bytes.now self.old) }
        ensures err { OnErr result (self.new ≡ self.old) }
    {
        match self {
            Value::Node(node) => node.grow(bytes),
            Value::Cwd(_) | Value::Text(_) | Value::Status(_) => Ok(()),
        }
    }
}
