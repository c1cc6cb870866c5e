//! Reads notes of changes: each is an array of a tag and the change's fields.
ghost use Rattle.std.specs.Prelude.{◌≡◌, IfOk, map};
ghost use Rattle.retro_value.specs.Borrowed.{value_data};
ghost use Rattle.retro_json.specs.NotesPart.{grow_cells, put_cells, set_cwd_cells};
ghost use Rattle.retro_json.specs.NotesPart.{set_status_cells, set_var_cells};

use crate::accepted;
use crate::fault::{Part, Refusal};
use crate::reading::fields::{hex_field, node_field, path_field, value_field, var_field};
use crate::reading::shape::u8_in;
use crate::reading::worst::{OrRefusal, both};
use json::Value;
use retro_tree::{Change, NoMem, Note};
use std::alloc::Global;

/// Reads the note `["put",path,node]`. `rest` is what follows the tag.
pub fn put_note(alloc: Global, rest: &[Value<'_>]) -> Result<OrRefusal<Note>, NoMem>
    ensures { IfOk result (λ note. note ≡ put_cells (map value_data rest.now)) }
{
    let [path, node] = rest else {
        return Ok(Err(Refusal::WrongShape(Part::Lines)));
    };
    let (path, node) = accepted!(both(path_field(alloc, path)?, node_field(alloc, node)?));
    Ok(Ok(Note::Made(Change::Put(path, node))))
}

/// Reads the note `["grow",path,"hex"]`. `rest` is what follows the tag.
pub fn grow_note(alloc: Global, rest: &[Value<'_>]) -> Result<OrRefusal<Note>, NoMem>
    ensures { IfOk result (λ note. note ≡ grow_cells (map value_data rest.now)) }
{
    let [path, hex] = rest else {
        return Ok(Err(Refusal::WrongShape(Part::Lines)));
    };
    let (path, bytes) = accepted!(both(path_field(alloc, path)?, hex_field(alloc, hex)?));
    Ok(Ok(Note::Made(Change::Grow(path, bytes))))
}

/// Reads the note `["setvar",name,value]` of a session. `rest` is what follows the tag.
pub fn set_var_note(alloc: Global, sid: u32, rest: &[Value<'_>]) -> Result<OrRefusal<Note>, NoMem>
    ensures { IfOk result (λ note. note ≡ set_var_cells sid (map value_data rest.now)) }
{
    let [name, value] = rest else {
        return Ok(Err(Refusal::WrongShape(Part::Lines)));
    };
    let (name, value) = accepted!(both(var_field(alloc, name)?, value_field(alloc, value)?));
    Ok(Ok(Note::Made(Change::SetVar(sid, name, value))))
}

/// Reads the note `["setcwd",path]` of a session. `rest` is what follows the tag.
pub fn set_cwd_note(alloc: Global, sid: u32, rest: &[Value<'_>]) -> Result<OrRefusal<Note>, NoMem>
    ensures { IfOk result (λ note. note ≡ set_cwd_cells sid (map value_data rest.now)) }
{
    let [path] = rest else {
        return Ok(Err(Refusal::WrongShape(Part::Lines)));
    };
    let path = accepted!(path_field(alloc, path)?);
    Ok(Ok(Note::Made(Change::SetCwd(sid, path))))
}

/// Reads the note `["setstatus",n]` of a session. `rest` is what follows the tag.
pub fn set_status_note(sid: u32, rest: &[Value<'_>]) -> OrRefusal<Note>
    ensures { result ≡ set_status_cells sid (map value_data rest.now) }
{
    let [status] = rest else {
        return Err(Refusal::WrongShape(Part::Lines));
    };
    let status = u8_in(Part::Lines, status)?;
    Ok(Note::Made(Change::SetStatus(sid, status)))
}
