//! Cells and values as the texts of rows.
use crate::failure::fail;
use crate::paths::{path, path_text};
use crate::texts::text;
use hex::encode;
use retro_tree::{Cell, NoMem, Node, Text, Value, VarName};
use std::alloc::Global;
use std::test::Fail;

/// Returns the cell of a session's variable.
fn variable(alloc: Global, sid: u32, name: &str) -> Result<Cell, Fail> {
    match VarName::of(alloc, name)? {
        Some(name) => Ok(Cell::Var(sid, name)),
        None => fail("no name"),
    }
}

/// Returns the cell of a session: `cwd`, `status` or a variable.
fn session_cell(alloc: Global, sid: u32, name: &str) -> Result<Cell, Fail> {
    match name {
        "cwd" => Ok(Cell::Cwd(sid)),
        "status" => Ok(Cell::Status(sid)),
        _ => variable(alloc, sid, name),
    }
}

/// Returns the cell with a name: a path, or `cwd`, `status` or a variable after the number of its
/// session.
pub fn cell(alloc: Global, given: &str) -> Result<Cell, Fail> {
    match given.split_once(' ') {
        Some((sid, name)) => session_cell(alloc, sid.parse()?, name),
        None => Ok(Cell::At(path(alloc, given)?)),
    }
}

/// Returns a file's bytes in hexadecimal digits.
fn file_text(alloc: Global, bytes: &[u8]) -> Result<String, NoMem> {
    let digits = encode(alloc, bytes)?;
    format!(in alloc; "file {digits}")
}

/// Returns a node as a text.
fn node_text(alloc: Global, node: &Node) -> Result<String, NoMem> {
    match node {
        Node::Missing => text(alloc, "missing"),
        Node::Dir => text(alloc, "dir"),
        Node::File(bytes) => file_text(alloc, bytes.as_slice()),
    }
}

/// Returns the text of a variable, or that it isn't set.
fn variable_text(alloc: Global, value: &Option<Text>) -> Result<String, NoMem> {
    match value {
        None => text(alloc, "unset"),
        Some(value) => format!(in alloc; "text {}", value.as_str()),
    }
}

/// Returns a value as a text.
pub fn value_text(alloc: Global, value: &Value) -> Result<String, NoMem> {
    match value {
        Value::Node(node) => node_text(alloc, node),
        Value::Cwd(path) => path_text(alloc, path.names()),
        Value::Text(value) => variable_text(alloc, value),
        Value::Status(status) => format!(in alloc; "{status}"),
    }
}

/// Returns the name of a cell, as [`cell`] reads it.
pub fn cell_text(alloc: Global, cell: &Cell) -> Result<String, NoMem> {
    match cell {
        Cell::At(path) => path_text(alloc, path.names()),
        Cell::Cwd(sid) => format!(in alloc; "{sid} cwd"),
        Cell::Status(sid) => format!(in alloc; "{sid} status"),
        Cell::Var(sid, name) => format!(in alloc; "{sid} {}", name.as_str()),
    }
}
