//! Reads notes of queries: each is an array of a tag, the query's fields and the answer.
ghost use Rattle.std.specs.Prelude.{◌≡◌, IfOk, map};
ghost use Rattle.retro_value.specs.Borrowed.{value_data};
ghost use Rattle.retro_json.specs.NotesPart.{bytes_cells, can_write_cells, cwd_cells, kind_cells};
ghost use Rattle.retro_json.specs.NotesPart.{names_cells, status_cells, user_note_cells, var_cells};

use crate::accepted;
use crate::fault::{Part, Refusal};
use crate::reading::fields::{
    kind_field, listing_field, node_field, or_null, path_field, permit_field, text_field,
    user_field, value_field, var_field,
};
use crate::reading::shape::{u8_in, u32_in};
use crate::reading::worst::{OrRefusal, both};
use json::Value;
use retro_tree::{Answer, Ask, NoMem, Note};
use std::alloc::Global;

/// Reads the note `["kind",path,"missing"|"dir"|"file"]`. `rest` is what follows the tag.
pub fn kind_note(alloc: Global, rest: &[Value<'_>]) -> Result<OrRefusal<Note>, NoMem>
    ensures { IfOk result (λ note. note ≡ kind_cells (map value_data rest.now)) }
{
    let [path, kind] = rest else {
        return Ok(Err(Refusal::WrongShape(Part::Lines)));
    };
    let (path, kind) = accepted!(both(path_field(alloc, path)?, kind_field(kind)));
    Ok(Ok(Note::Asked(Ask::Kind(path), Answer::Kind(kind))))
}

/// Reads the note `["bytes",path,node]`. `rest` is what follows the tag.
pub fn bytes_note(alloc: Global, rest: &[Value<'_>]) -> Result<OrRefusal<Note>, NoMem>
    ensures { IfOk result (λ note. note ≡ bytes_cells (map value_data rest.now)) }
{
    let [path, node] = rest else {
        return Ok(Err(Refusal::WrongShape(Part::Lines)));
    };
    let (path, node) = accepted!(both(path_field(alloc, path)?, node_field(alloc, node)?));
    Ok(Ok(Note::Asked(Ask::Bytes(path), Answer::Bytes(node))))
}

/// Reads the note `["names",path,null|[name,..]]`. `rest` is what follows the tag.
pub fn names_note(alloc: Global, rest: &[Value<'_>]) -> Result<OrRefusal<Note>, NoMem>
    ensures { IfOk result (λ note. note ≡ names_cells (map value_data rest.now)) }
{
    let [path, names] = rest else {
        return Ok(Err(Refusal::WrongShape(Part::Lines)));
    };
    let listing = or_null(names, listing_field(alloc, names)?);
    let (path, names) = accepted!(both(path_field(alloc, path)?, listing));
    Ok(Ok(Note::Asked(Ask::Names(path), Answer::Names(names))))
}

/// Reads the note `["canwrite",path,n,"yes"|"noparent"|"notdir"|"isdir"|"toolarge"]`, where `n` is
/// a number of bytes. `rest` is what follows the tag.
pub fn can_write_note(alloc: Global, rest: &[Value<'_>]) -> Result<OrRefusal<Note>, NoMem>
    ensures { IfOk result (λ note. note ≡ can_write_cells (map value_data rest.now)) }
{
    let [path, more, permit] = rest else {
        return Ok(Err(Refusal::WrongShape(Part::Lines)));
    };
    let answer = both(u32_in(Part::Lines, more), permit_field(permit));
    let (path, (more, permit)) = accepted!(both(path_field(alloc, path)?, answer));
    Ok(Ok(Note::Asked(Ask::CanWrite(path, more), Answer::CanWrite(permit))))
}

/// Reads the note `["user",name,null|[number,home]]`. `rest` is what follows the tag.
pub fn user_note(alloc: Global, rest: &[Value<'_>]) -> Result<OrRefusal<Note>, NoMem>
    ensures { IfOk result (λ note. note ≡ user_note_cells (map value_data rest.now)) }
{
    let [name, user] = rest else {
        return Ok(Err(Refusal::WrongShape(Part::Lines)));
    };
    let user = or_null(user, user_field(alloc, user)?);
    let (name, user) = accepted!(both(text_field(alloc, name)?, user));
    Ok(Ok(Note::Asked(Ask::User(name), Answer::User(user))))
}

/// Reads the note `["var",name,null|value]` of a session. `rest` is what follows the tag.
pub fn var_note(alloc: Global, sid: u32, rest: &[Value<'_>]) -> Result<OrRefusal<Note>, NoMem>
    ensures { IfOk result (λ note. note ≡ var_cells sid (map value_data rest.now)) }
{
    let [name, value] = rest else {
        return Ok(Err(Refusal::WrongShape(Part::Lines)));
    };
    let value = or_null(value, value_field(alloc, value)?);
    let (name, value) = accepted!(both(var_field(alloc, name)?, value));
    Ok(Ok(Note::Asked(Ask::VarOf(sid, name), Answer::Var(value))))
}

/// Reads the note `["cwd",path]` of a session. `rest` is what follows the tag.
pub fn cwd_note(alloc: Global, sid: u32, rest: &[Value<'_>]) -> Result<OrRefusal<Note>, NoMem>
    ensures { IfOk result (λ note. note ≡ cwd_cells sid (map value_data rest.now)) }
{
    let [path] = rest else {
        return Ok(Err(Refusal::WrongShape(Part::Lines)));
    };
    let path = accepted!(path_field(alloc, path)?);
    Ok(Ok(Note::Asked(Ask::CwdOf(sid), Answer::Cwd(path))))
}

/// Reads the note `["status",n]` of a session. `rest` is what follows the tag.
pub fn status_note(sid: u32, rest: &[Value<'_>]) -> OrRefusal<Note>
    ensures { result ≡ status_cells sid (map value_data rest.now) }
{
    let [status] = rest else {
        return Err(Refusal::WrongShape(Part::Lines));
    };
    let status = u8_in(Part::Lines, status)?;
    Ok(Note::Asked(Ask::StatusOf(sid), Answer::Status(status)))
}
