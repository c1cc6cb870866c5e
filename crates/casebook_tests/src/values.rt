//! Queries and answers as the texts of rows.
use retro_rows::{fail, path, text};
use retro_tree::{Answer, Ask, Bytes, Kind, Listing, Name, Node, Permit, Text, User, VarName};
use std::alloc::Global;
use std::test::Fail;

/// Returns a query: what is asked, and of what.
pub fn ask(alloc: Global, given: &str) -> Result<Ask, Fail> {
    let Some((kind, of)) = given.split_once(' ') else {
        return fail("a query has no object");
    };
    match kind {
        "kind" => Ok(Ask::Kind(path(alloc, of)?)),
        "bytes" => Ok(Ask::Bytes(path(alloc, of)?)),
        "names" => Ok(Ask::Names(path(alloc, of)?)),
        "write" => Ok(Ask::CanWrite(path(alloc, of)?, 5)),
        "user" => Ok(Ask::User(Text::of(text(alloc, of)?))),
        "var" => Ok(Ask::VarOf(2, variable(alloc, of)?)),
        "cwd" => Ok(Ask::CwdOf(of.parse()?)),
        "status" => Ok(Ask::StatusOf(of.parse()?)),
        _ => fail("no query"),
    }
}

/// Returns the name of a variable.
pub fn variable(alloc: Global, given: &str) -> Result<VarName, Fail> {
    match VarName::of(alloc, given)? {
        Some(name) => Ok(name),
        None => fail("no variable"),
    }
}

/// Returns an answer to a query. `none` is nothing.
pub fn answer(alloc: Global, ask: &Ask, given: &str) -> Result<Answer, Fail> {
    match ask {
        Ask::Kind(_) => Ok(Answer::Kind(kind(given)?)),
        Ask::Bytes(_) => Ok(Answer::Bytes(node(alloc, given)?)),
        Ask::Names(_) => Ok(Answer::Names(listing(alloc, given)?)),
        Ask::CanWrite(_, _) => Ok(Answer::CanWrite(permit(given)?)),
        Ask::User(_) => Ok(Answer::User(user(alloc, given)?)),
        Ask::VarOf(_, _) if given == "none" => Ok(Answer::Var(None)),
        Ask::VarOf(_, _) => Ok(Answer::Var(Some(Text::of(text(alloc, given)?)))),
        Ask::CwdOf(_) => Ok(Answer::Cwd(path(alloc, given)?)),
        Ask::StatusOf(_) => Ok(Answer::Status(given.parse()?)),
    }
}

/// Returns a kind of node.
fn kind(given: &str) -> Result<Kind, Fail> {
    match given {
        "missing" => Ok(Kind::Missing),
        "dir" => Ok(Kind::Dir),
        "file" => Ok(Kind::File),
        _ => fail("no kind"),
    }
}

/// Returns a permit.
fn permit(given: &str) -> Result<Permit, Fail> {
    match given {
        "yes" => Ok(Permit::Yes),
        "no parent" => Ok(Permit::NoParent),
        "no dir" => Ok(Permit::NotDir),
        "dir" => Ok(Permit::IsDir),
        "large" => Ok(Permit::TooLarge),
        _ => fail("no permit"),
    }
}

/// Returns a node: `missing`, `dir`, or the bytes of a file.
pub fn node(alloc: Global, given: &str) -> Result<Node, Fail> {
    match given {
        "missing" => Ok(Node::Missing),
        "dir" => Ok(Node::Dir),
        _ => Ok(Node::File(Bytes::of(Vec::from_slice(alloc, given.as_bytes())?))),
    }
}

/// Returns a listing of the names between spaces.
fn listing(alloc: Global, given: &str) -> Result<Option<Listing>, Fail> {
    if given == "none" {
        return Ok(None);
    }
    let mut names = Vec::new(alloc);
    for name in given.split(' ') {
        match Name::of(text(alloc, name)?) {
            Some(name) => names.push(name)?,
            None => fail("no name")?,
        }
    }
    Ok(Some(Listing::of(names)))
}

/// Returns a user: a number and a home directory.
fn user(alloc: Global, given: &str) -> Result<Option<User>, Fail> {
    match given.split_once(' ') {
        Some((number, home)) => Ok(Some(User {
            number: number.parse()?,
            home: Text::of(text(alloc, home)?),
        })),
        None => Ok(None),
    }
}
