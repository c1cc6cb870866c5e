//! Borrowed values of cells.
ghost use Rattle.std.specs.Prelude.{◌≡◌, IfOk};
ghost use Rattle.retro_tree.specs.ValueRef.{ref_value};

use crate::node::Node;
use crate::value::Value;
use retro_path::{Bytes, NoMem, Path, Text};
use std::alloc::Global;

/// A borrowed value of a cell.
#[derive(Clone, Copy)]
pub enum ValueRef<'a> {
    /// The path is missing.
    Missing,
    /// The path is a directory.
    Dir,
    /// The path is a file with these bytes.
    File(&'a [u8]),
    /// A session's directory.
    Cwd(&'a Path),
    /// The root, as the directory of a session that doesn't exist.
    Root,
    /// A variable's value.
    Text(&'a Text),
    /// The variable isn't set.
    Unset,
    /// A session's status.
    Status(u8),
}

impl<'a> ValueRef<'a> {
    /// Borrows a value.
    pub fn of(value: &'a Value) -> ValueRef<'a>
        ensures { ref_value result ≡ value.now }
    {
        match value {
            Value::Node(Node::Missing) => ValueRef::Missing,
            Value::Node(Node::Dir) => ValueRef::Dir,
            Value::Node(Node::File(bytes)) => ValueRef::File(bytes.as_slice()),
            Value::Cwd(path) => ValueRef::Cwd(path),
            Value::Text(Some(text)) => ValueRef::Text(text),
            Value::Text(None) => ValueRef::Unset,
            Value::Status(status) => ValueRef::Status(*status),
        }
    }

    /// Returns the value as one that owns what it holds.
    pub fn to_value(self, alloc: Global) -> Result<Value, NoMem>
        ensures { IfOk result (λ value. value ≡ ref_value self.entry) }
    {
        match self {
            ValueRef::Missing => Ok(Value::Node(Node::Missing)),
            ValueRef::Dir => Ok(Value::Node(Node::Dir)),
            ValueRef::File(bytes) => {
                let mut copy = Bytes::new(alloc);
                copy.extend(bytes)?;
                Ok(Value::Node(Node::File(copy)))
            }
            ValueRef::Cwd(path) => Ok(Value::Cwd(path.copy()?)),
            ValueRef::Root => Ok(Value::Cwd(Path::root(alloc))),
            ValueRef::Text(text) => Ok(Value::Text(Some(text.copy()?))),
            ValueRef::Unset => Ok(Value::Text(None)),
            ValueRef::Status(status) => Ok(Value::Status(status)),
        }
    }
}
