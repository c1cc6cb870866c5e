//! Queries and their answers as text.
//!
//! Queries are `kind PATH`, `bytes PATH`, `names PATH`, `canwrite PATH NUMBER`, `user NAME`,
//! `var SID NAME`, `cwd SID`, and `status SID`.
use crate::changes::variable;
use retro_rows::{fail, path, path_text, text, utf8};
use retro_tree::{Answer, Ask, Cell, Listing, NoMem, Node, Path, Text, User, Value};
use std::alloc::Global;
use std::test::Fail;

/// Returns the query about a path.
fn path_question(kind: &str, path: Path) -> Result<Ask, Fail> {
    match kind {
        "kind" => Ok(Ask::Kind(path)),
        "bytes" => Ok(Ask::Bytes(path)),
        "names" => Ok(Ask::Names(path)),
        _ => fail("no such question"),
    }
}

/// Returns the query about a path and a number, or about a session's variable.
fn question_of_two(alloc: Global, kind: &str, first: &str, second: &str) -> Result<Ask, Fail> {
    match kind {
        "canwrite" => Ok(Ask::CanWrite(path(alloc, first)?, second.parse()?)),
        "var" => Ok(Ask::VarOf(first.parse()?, variable(alloc, second)?)),
        _ => fail("no such question"),
    }
}

/// Returns the query about a user, a session or a path.
fn question_of_one(alloc: Global, kind: &str, of: &str) -> Result<Ask, Fail> {
    match kind {
        "user" => Ok(Ask::User(Text::of(text(alloc, of)?))),
        "cwd" => Ok(Ask::CwdOf(of.parse()?)),
        "status" => Ok(Ask::StatusOf(of.parse()?)),
        _ => path_question(kind, path(alloc, of)?),
    }
}

/// Returns a copy of the query that a text says.
pub fn ask(alloc: Global, kind: &str, rest: &str) -> Result<Ask, Fail> {
    let ask = match rest.split_once(' ') {
        Some((first, second)) => question_of_two(alloc, kind, first, second)?,
        None => question_of_one(alloc, kind, rest)?,
    };
    Ok(ask.copy()?)
}

/// Returns the cell that a query of one cell is about.
fn cell_of(ask: Ask) -> Result<Cell, Fail> {
    match ask {
        Ask::Bytes(path) => Ok(Cell::At(path)),
        Ask::CwdOf(sid) => Ok(Cell::Cwd(sid)),
        Ask::VarOf(sid, name) => Ok(Cell::Var(sid, name)),
        Ask::StatusOf(sid) => Ok(Cell::Status(sid)),
        _ => fail("no such cell"),
    }
}

/// Returns a copy of the cell that a query is about.
pub fn cell(alloc: Global, kind: &str, rest: &str) -> Result<Cell, Fail> {
    let cell = cell_of(ask(alloc, kind, rest)?)?;
    Ok(cell.copy()?)
}

/// Returns a node as text.
fn node_text(alloc: Global, node: &Node) -> Result<String, Fail> {
    match node {
        Node::Missing => Ok(text(alloc, "missing")?),
        Node::Dir => Ok(text(alloc, "dir")?),
        Node::File(content) => {
            let content = utf8(content.as_slice())?;
            Ok(format!(in alloc; "file {content}")?)
        }
    }
}

/// Returns the names of a listing, with spaces between.
pub fn listing_text(alloc: Global, listing: &Listing) -> Result<String, NoMem> {
    let mut out = String::new(alloc);
    for name in listing.names() {
        if !out.is_empty() {
            out.push(' ')?;
        }
        out.push_str(name.as_str())?;
    }
    Ok(out)
}

/// Returns the names of a copy of a listing, or that there is no directory.
fn names_text(alloc: Global, listing: &Option<Listing>) -> Result<String, NoMem> {
    match listing {
        Some(listing) => listing_text(alloc, &listing.copy()?),
        None => text(alloc, "no directory"),
    }
}

/// Returns a user as text.
fn user_text(alloc: Global, user: &Option<User>) -> Result<String, NoMem> {
    match user {
        Some(user) => format!(in alloc; "{} {}", user.number, user.home.as_str()),
        None => text(alloc, "nobody"),
    }
}

/// Returns a variable's value as text.
fn variable_text(alloc: Global, value: &Option<Text>) -> Result<String, NoMem> {
    match value {
        Some(value) => text(alloc, value.as_str()),
        None => text(alloc, "unset"),
    }
}

/// Returns an answer as text.
pub fn answer_text(alloc: Global, answer: &Answer) -> Result<String, Fail> {
    match answer {
        Answer::Kind(kind) => Ok(format!(in alloc; "{kind:?}")?),
        Answer::Bytes(node) => node_text(alloc, node),
        Answer::Names(listing) => Ok(names_text(alloc, listing)?),
        Answer::CanWrite(permit) => Ok(format!(in alloc; "{permit:?}")?),
        Answer::User(user) => Ok(user_text(alloc, user)?),
        Answer::Var(value) => Ok(variable_text(alloc, value)?),
        Answer::Cwd(path) => Ok(path_text(alloc, path.names())?),
        Answer::Status(status) => Ok(format!(in alloc; "{status}")?),
    }
}

/// Returns a cell's value as text.
pub fn value_text(alloc: Global, value: &Value) -> Result<String, Fail> {
    match value {
        Value::Node(node) => node_text(alloc, node),
        Value::Cwd(path) => Ok(path_text(alloc, path.names())?),
        Value::Text(value) => Ok(variable_text(alloc, value)?),
        Value::Status(status) => Ok(format!(in alloc; "{status}")?),
    }
}
