//! Reads the notes of a line in a log.
ghost use Rattle.std.specs.Prelude.{◌≡◌, IfOk, map};
ghost use Rattle.retro_value.specs.Borrowed.{value_data};
ghost use Rattle.retro_json.specs.ReadsAs.{seen};
ghost use Rattle.retro_json.specs.Worst.{every};
ghost use Rattle.retro_json.specs.NotesPart.{note_cells, note_of, notes_field, tagged_note};

use crate::accepted;
use crate::fault::{Part, Refusal};
use crate::reading::asked::{
    bytes_note, can_write_note, cwd_note, kind_note, names_note, status_note, user_note, var_note,
};
use crate::reading::made::{grow_note, put_note, set_cwd_note, set_status_note, set_var_note};
use crate::reading::shape::{cells, text};
use crate::reading::worst::{OrRefusal, with_item};
use json::Value;
use retro_tree::{NoMem, Note, Notes};
use std::alloc::Global;

/// Reads the note of a session that has this tag. `rest` is what follows the tag.
#[tactic(auto, unfolding(crate::specs::NotesPart::tagged_note))]
fn tagged_note(
    alloc: Global,
    sid: u32,
    tag: &str,
    rest: &[Value<'_>],
) -> Result<OrRefusal<Note>, NoMem>
    ensures { IfOk result (λ note. note ≡ tagged_note sid tag.now (map value_data rest.now)) }
{
    match tag {
        "kind" => kind_note(alloc, rest),
        "bytes" => bytes_note(alloc, rest),
        "names" => names_note(alloc, rest),
        "canwrite" => can_write_note(alloc, rest),
        "user" => user_note(alloc, rest),
        "var" => var_note(alloc, sid, rest),
        "cwd" => cwd_note(alloc, sid, rest),
        "status" => Ok(status_note(sid, rest)),
        "put" => put_note(alloc, rest),
        "grow" => grow_note(alloc, rest),
        "setvar" => set_var_note(alloc, sid, rest),
        "setcwd" => set_cwd_note(alloc, sid, rest),
        "setstatus" => Ok(set_status_note(sid, rest)),
        _ => Ok(Err(Refusal::WrongShape(Part::Lines))),
    }
}

/// Reads a note from the items of its array.
fn note_of_cells(alloc: Global, sid: u32, cells: &[Value<'_>]) -> Result<OrRefusal<Note>, NoMem>
    ensures { IfOk result (λ note. note ≡ note_cells sid (map value_data cells.now)) }
{
    let [tag, rest @ ..] = cells else {
        return Ok(Err(Refusal::WrongShape(Part::Lines)));
    };
    let tag = accepted!(text(Part::Lines, tag));
    tagged_note(alloc, sid, tag, rest)
}

/// Reads a note of a session.
#[tactic(auto, unfolding(crate::specs::NotesPart::note_of))]
fn read_note(alloc: Global, sid: u32, value: &Value<'_>) -> Result<OrRefusal<Note>, NoMem>
    ensures { IfOk result (λ note. note ≡ note_of sid (value_data value.now)) }
{
    note_of_cells(alloc, sid, accepted!(cells(Part::Lines, value)))
}

/// Reads notes of a session, or returns their worst refusal.
#[tactic(auto, using(crate::proofs::Worst::validating_starts))]
fn read_items(alloc: Global, sid: u32, items: &[Value<'_>]) -> Result<OrRefusal<Vec<Note>>, NoMem>
    ensures { IfOk result (λ notes. seen (λ v. v.items) notes
        ≡ every (note_of sid) (map value_data items.now)) }
{
    let mut notes = Ok(Vec::with_capacity(alloc, items.len())?);
    for item in items {
        let note = read_note(alloc, sid, item)?;
        notes = with_item(notes, note)?;
    }
    Ok(notes)
}

/// Reads the notes of a line of this session, or returns their worst refusal.
#[tactic(auto, unfolding(crate::specs::NotesPart::notes_field))]
pub fn notes_field(alloc: Global, sid: u32, value: &Value<'_>) -> Result<OrRefusal<Notes>, NoMem>
    ensures { IfOk result (λ notes. notes ≡ notes_field sid (value_data value.now)) }
{
    let items = accepted!(cells(Part::Lines, value));
    let notes = accepted!(read_items(alloc, sid, items)?);
    Ok(Ok(Notes::of(alloc, notes)?))
}
