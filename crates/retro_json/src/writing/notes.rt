//! Makes the JSON values of notes.
ghost use Rattle.std.specs.Prelude.{◌≡◌, Some, IfOk, OnOk, true};
ghost use Rattle.serde_json.specs.View.{view};
ghost use Rattle.retro_json.specs.NoteValues.{kind_text, permit_text, node_data, listing_data};
ghost use Rattle.retro_json.specs.NoteValues.{user_data};
ghost use Rattle.retro_json.specs.NoteValues.{answer_data, asked_data, change_data, note_data};
ghost use Rattle.retro_json.specs.NoteValues.{notes_data};
ghost use Rattle.retro_json.specs.Typed.{are_names, node_typed, user_typed, answer_typed, ask_typed};
ghost use Rattle.retro_json.specs.Typed.{change_typed, listing_typed, note_typed};
ghost use Rattle.std.specs.List.{list_all};

use crate::writing::fields::{hex_value, number_value, path_value, status_value, text_value};
use retro_tree::{Answer, Ask, Change, Kind, Listing, Name, NoMem, Node, Note, Permit, User};
use serde_json::{Value, json};
use std::alloc::Global;

/// Returns the name of a kind of node.
fn kind_text(kind: Kind) -> &'static str
    ensures { result.now ≡ kind_text kind }
{
    match kind {
        Kind::Missing => "missing",
        Kind::Dir => "dir",
        Kind::File => "file",
    }
}

/// Returns the name of an answer to a query whether bytes can be written.
fn permit_text(permit: Permit) -> &'static str
    ensures { result.now ≡ permit_text permit }
{
    match permit {
        Permit::Yes => "yes",
        Permit::NoParent => "noparent",
        Permit::NotDir => "notdir",
        Permit::IsDir => "isdir",
        Permit::TooLarge => "toolarge",
    }
}

/// Returns the value of a node: `[]` for a missing one, `["d"]` for a directory, `["f","hex"]` for
/// a file.
#[tactic(auto, unfolding(crate::specs::NoteValues::node_data))]
fn node_value(alloc: Global, node: &Node) -> Result<Value, NoMem>
    ensures value { IfOk result (λ v. view v ≡ node_data node.now) }
    ensures typed { OnOk result (node_typed node.now ≡ true) }
{
    match node {
        Node::Missing => Ok(Value::Array(Vec::new(alloc))),
        Node::Dir => json!(in alloc; ["d"]),
        Node::File(bytes) => {
            let bytes = hex_value(alloc, bytes.as_slice())?;
            json!(in alloc; ["f", bytes])
        }
    }
}

/// Returns the value of the names of a directory's children, in their order: `[name,..]`.
#[tactic(auto, unfolding(crate::specs::NoteValues::listing_data))]
fn names_value(alloc: Global, names: &[Name]) -> Result<Value, NoMem>
    ensures value { IfOk result (λ v. view v ≡ listing_data (Some names.now)) }
    ensures typed { OnOk result (are_names names.now ≡ true) }
{
    let mut items = Vec::new(alloc);
    for name in names {
        items.push(text_value(alloc, name.as_str())?)?;
    }
    Ok(Value::Array(items))
}

/// Returns the value of a listing: `[name,..]`, or `null` if there is no listing.
#[tactic(auto, unfolding(crate::specs::NoteValues::listing_data))]
fn listing_value(alloc: Global, listing: &Option<Listing>) -> Result<Value, NoMem>
    ensures value { IfOk result (λ v. view v ≡ listing_data listing.now) }
    ensures typed { OnOk result (listing_typed listing.now ≡ true) }
{
    match listing {
        Some(listing) => names_value(alloc, listing.names()),
        None => Ok(Value::Null),
    }
}

/// Returns the value of a login name's entry in the password file: `[number,home]`, or `null` if
/// there is none.
#[tactic(auto, unfolding(crate::specs::NoteValues::user_data))]
fn user_value(alloc: Global, user: &Option<User>) -> Result<Value, NoMem>
    ensures value { IfOk result (λ v. view v ≡ user_data user.now) }
    ensures typed { OnOk result (user_typed user.now ≡ true) }
{
    match user {
        Some(user) => {
            let number = number_value(user.number);
            json!(in alloc; [number, user.home.as_str()])
        }
        None => Ok(Value::Null),
    }
}

/// Returns the value of an answer: `null` if there is no listing, user or variable.
#[tactic(auto, unfolding(crate::specs::NoteValues::answer_data))]
fn answer_value(alloc: Global, answer: &Answer) -> Result<Value, NoMem>
    ensures value { IfOk result (λ v. view v ≡ answer_data answer.now) }
    ensures typed { OnOk result (answer_typed answer.now ≡ true) }
{
    match answer {
        Answer::Kind(kind) => text_value(alloc, kind_text(*kind)),
        Answer::Bytes(node) => node_value(alloc, node),
        Answer::Names(listing) => listing_value(alloc, listing),
        Answer::CanWrite(permit) => text_value(alloc, permit_text(*permit)),
        Answer::User(user) => user_value(alloc, user),
        Answer::Var(Some(value)) => text_value(alloc, value.as_str()),
        Answer::Var(None) => Ok(Value::Null),
        Answer::Cwd(path) => path_value(alloc, path),
        Answer::Status(status) => Ok(status_value(*status)),
    }
}

/// Returns the value of a query with its answer: an array of the query's tag, its fields and the
/// answer. The session isn't written.
#[tactic(auto, unfolding(crate::specs::NoteValues::asked_data))]
fn asked_value(alloc: Global, ask: &Ask, answer: Value) -> Result<Value, NoMem>
    ensures value { IfOk result (λ v. view v ≡ asked_data ask.now (view answer)) }
    ensures typed { OnOk result (ask_typed ask.now ≡ true) }
{
    match ask {
        Ask::Kind(path) => json!(in alloc; ["kind", path_value(alloc, path)?, answer]),
        Ask::Bytes(path) => json!(in alloc; ["bytes", path_value(alloc, path)?, answer]),
        Ask::Names(path) => json!(in alloc; ["names", path_value(alloc, path)?, answer]),
        Ask::CanWrite(path, more) => {
            let path = path_value(alloc, path)?;
            json!(in alloc; ["canwrite", path, number_value(*more), answer])
        }
        Ask::User(name) => json!(in alloc; ["user", name.as_str(), answer]),
        Ask::VarOf(_, name) => json!(in alloc; ["var", name.as_str(), answer]),
        Ask::CwdOf(_) => json!(in alloc; ["cwd", answer]),
        Ask::StatusOf(_) => json!(in alloc; ["status", answer]),
    }
}

/// Returns the value of a change: an array of its tag and its fields. The session isn't written.
#[tactic(auto, unfolding(crate::specs::NoteValues::change_data))]
fn change_value(alloc: Global, change: &Change) -> Result<Value, NoMem>
    ensures value { IfOk result (λ v. view v ≡ change_data change.now) }
    ensures typed { OnOk result (change_typed change.now ≡ true) }
{
    match change {
        Change::Put(path, node) => {
            let path = path_value(alloc, path)?;
            json!(in alloc; ["put", path, node_value(alloc, node)?])
        }
        Change::Grow(path, bytes) => {
            let path = path_value(alloc, path)?;
            json!(in alloc; ["grow", path, hex_value(alloc, bytes.as_slice())?])
        }
        Change::SetVar(_, name, value) => {
            json!(in alloc; ["setvar", name.as_str(), value.as_str()])
        }
        Change::SetCwd(_, path) => json!(in alloc; ["setcwd", path_value(alloc, path)?]),
        Change::SetStatus(_, status) => json!(in alloc; ["setstatus", status_value(*status)]),
    }
}

/// Returns the value of a note.
fn note_value(alloc: Global, note: &Note) -> Result<Value, NoMem>
    ensures value { IfOk result (λ v. view v ≡ note_data note.now) }
    ensures typed { OnOk result (note_typed note.now ≡ true) }
{
    match note {
        Note::Asked(ask, answer) => {
            let answer = answer_value(alloc, answer)?;
            asked_value(alloc, ask, answer)
        }
        Note::Made(change) => change_value(alloc, change),
    }
}

/// Returns the value of the notes of a line, in order. The line's session isn't written.
#[tactic(auto, unfolding(crate::specs::NoteValues::notes_data))]
pub fn notes_value(alloc: Global, notes: &[Note]) -> Result<Value, NoMem>
    ensures value { IfOk result (λ v. view v ≡ notes_data notes.now) }
    ensures typed { OnOk result (list_all note_typed notes.now ≡ true) }
{
    let mut items = Vec::new(alloc);
    for note in notes {
        items.push(note_value(alloc, note)?)?;
    }
    Ok(Value::Array(items))
}
