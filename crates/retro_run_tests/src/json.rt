//! Notes as JSON, as logs write them.
use hex::encode;
use retro_rows::{path_text, text};
use retro_tree::{Answer, Ask, Change, Kind, Listing, NoMem, Node, Note, Path, Permit, Text, User};
use std::alloc::Global;

/// Appends a character, with its escape where it has one.
fn push_escaped(out: &mut String, c: char) -> Result<(), NoMem> {
    match c {
        '"' => out.push_str("\\\""),
        '\\' => out.push_str("\\\\"),
        '\n' => out.push_str("\\n"),
        '\r' => out.push_str("\\r"),
        '\t' => out.push_str("\\t"),
        _ => out.push(c),
    }
}

/// Returns a text between quotes.
fn quoted(alloc: Global, given: &str) -> Result<String, NoMem> {
    let mut out = text(alloc, "\"")?;
    for c in given.chars() {
        push_escaped(&mut out, c)?;
    }
    out.push('"')?;
    Ok(out)
}

/// Returns a path as text between quotes.
fn path_json(alloc: Global, path: &Path) -> Result<String, NoMem> {
    quoted(alloc, &path_text(alloc, path.names())?)
}

/// Returns a file's content as JSON.
fn file_json(alloc: Global, content: &[u8]) -> Result<String, NoMem> {
    let digits = encode(alloc, content)?;
    format!(in alloc; "[\"f\",\"{digits}\"]")
}

/// Returns a node as JSON.
fn node_json(alloc: Global, node: &Node) -> Result<String, NoMem> {
    match node {
        Node::Missing => text(alloc, "[]"),
        Node::Dir => text(alloc, "[\"d\"]"),
        Node::File(content) => file_json(alloc, content.as_slice()),
    }
}

/// Returns the names of a listing between brackets.
fn names_json(alloc: Global, listing: &Listing) -> Result<String, NoMem> {
    let mut out = text(alloc, "[")?;
    for name in listing.names() {
        if out.len() > 1 {
            out.push(',')?;
        }
        out.push_str(&quoted(alloc, name.as_str())?)?;
    }
    out.push(']')?;
    Ok(out)
}

/// Returns a listing as JSON, `null` if there is none.
fn listing_json(alloc: Global, listing: &Option<Listing>) -> Result<String, NoMem> {
    match listing {
        Some(listing) => names_json(alloc, listing),
        None => text(alloc, "null"),
    }
}

/// Returns a user's number and home as JSON.
fn user_json(alloc: Global, user: &User) -> Result<String, NoMem> {
    let home = quoted(alloc, user.home.as_str())?;
    format!(in alloc; "[{},{home}]", user.number)
}

/// Returns a user as JSON, `null` if there is none.
fn entry_json(alloc: Global, user: &Option<User>) -> Result<String, NoMem> {
    match user {
        Some(user) => user_json(alloc, user),
        None => text(alloc, "null"),
    }
}

/// Returns a variable's value as JSON, `null` if it isn't set.
fn variable_json(alloc: Global, value: &Option<Text>) -> Result<String, NoMem> {
    match value {
        Some(value) => quoted(alloc, value.as_str()),
        None => text(alloc, "null"),
    }
}

/// Returns the word of a kind.
fn kind_word(kind: Kind) -> &'static str {
    match kind {
        Kind::Missing => "missing",
        Kind::Dir => "dir",
        Kind::File => "file",
    }
}

/// Returns the word of a permit.
fn permit_word(permit: Permit) -> &'static str {
    match permit {
        Permit::Yes => "yes",
        Permit::NoParent => "noparent",
        Permit::NotDir => "notdir",
        Permit::IsDir => "isdir",
        Permit::TooLarge => "toolarge",
    }
}

/// Returns a note's word with the path that it is about.
fn of_path(alloc: Global, word: &str, path: &Path) -> Result<String, NoMem> {
    let path = path_json(alloc, path)?;
    format!(in alloc; "\"{word}\",{path}")
}

/// Returns a note's word with the name that it is about.
fn of_name(alloc: Global, word: &str, name: &str) -> Result<String, NoMem> {
    let name = quoted(alloc, name)?;
    format!(in alloc; "\"{word}\",{name}")
}

/// Returns the query whether bytes may be written to a path, without its brackets.
fn of_writing(alloc: Global, path: &Path, more: u32) -> Result<String, NoMem> {
    let path = path_json(alloc, path)?;
    format!(in alloc; "\"canwrite\",{path},{more}")
}

/// Returns a query as JSON, without its brackets and its session.
fn ask_json(alloc: Global, ask: &Ask) -> Result<String, NoMem> {
    match ask {
        Ask::Kind(path) => of_path(alloc, "kind", path),
        Ask::Bytes(path) => of_path(alloc, "bytes", path),
        Ask::Names(path) => of_path(alloc, "names", path),
        Ask::CanWrite(path, more) => of_writing(alloc, path, *more),
        Ask::User(name) => of_name(alloc, "user", name.as_str()),
        Ask::VarOf(_, name) => of_name(alloc, "var", name.as_str()),
        Ask::CwdOf(_) => text(alloc, "\"cwd\""),
        Ask::StatusOf(_) => text(alloc, "\"status\""),
    }
}

/// Returns an answer as JSON.
fn answer_json(alloc: Global, answer: &Answer) -> Result<String, NoMem> {
    match answer {
        Answer::Kind(kind) => quoted(alloc, kind_word(*kind)),
        Answer::Bytes(node) => node_json(alloc, node),
        Answer::Names(listing) => listing_json(alloc, listing),
        Answer::CanWrite(permit) => quoted(alloc, permit_word(*permit)),
        Answer::User(user) => entry_json(alloc, user),
        Answer::Var(value) => variable_json(alloc, value),
        Answer::Cwd(path) => path_json(alloc, path),
        Answer::Status(status) => format!(in alloc; "{status}"),
    }
}

/// Returns a query with its answer as JSON.
fn asked_json(alloc: Global, ask: &Ask, answer: &Answer) -> Result<String, NoMem> {
    let ask = ask_json(alloc, ask)?;
    let answer = answer_json(alloc, answer)?;
    format!(in alloc; "[{ask},{answer}]")
}

/// Returns the change of a node as JSON.
fn put_json(alloc: Global, path: &Path, node: &Node) -> Result<String, NoMem> {
    let path = of_path(alloc, "put", path)?;
    let node = node_json(alloc, node)?;
    format!(in alloc; "[{path},{node}]")
}

/// Returns the growth of a file as JSON.
fn grow_json(alloc: Global, path: &Path, content: &[u8]) -> Result<String, NoMem> {
    let path = of_path(alloc, "grow", path)?;
    let digits = encode(alloc, content)?;
    format!(in alloc; "[{path},\"{digits}\"]")
}

/// Returns the change of a variable as JSON.
fn set_var_json(alloc: Global, name: &str, value: &str) -> Result<String, NoMem> {
    let name = of_name(alloc, "setvar", name)?;
    let value = quoted(alloc, value)?;
    format!(in alloc; "[{name},{value}]")
}

/// Returns the change of a session's directory as JSON.
fn set_cwd_json(alloc: Global, path: &Path) -> Result<String, NoMem> {
    let path = of_path(alloc, "setcwd", path)?;
    format!(in alloc; "[{path}]")
}

/// Returns a change as JSON.
fn made_json(alloc: Global, change: &Change) -> Result<String, NoMem> {
    match change {
        Change::Put(path, node) => put_json(alloc, path, node),
        Change::Grow(path, content) => grow_json(alloc, path, content.as_slice()),
        Change::SetVar(_, name, value) => set_var_json(alloc, name.as_str(), value.as_str()),
        Change::SetCwd(_, path) => set_cwd_json(alloc, path),
        Change::SetStatus(_, status) => format!(in alloc; "[\"setstatus\",{status}]"),
    }
}

/// Returns a note as JSON, without its session.
fn note_json(alloc: Global, note: &Note) -> Result<String, NoMem> {
    match note {
        Note::Asked(ask, answer) => asked_json(alloc, ask, answer),
        Note::Made(change) => made_json(alloc, change),
    }
}

/// Appends notes, each after a space.
pub fn push_notes(alloc: Global, out: &mut String, notes: &[Note]) -> Result<(), NoMem> {
    for note in notes {
        out.push(' ')?;
        out.push_str(&note_json(alloc, note)?)?;
    }
    Ok(())
}
