//! Writes the lines of a log.
ghost use Rattle.std.specs.Prelude.{◌≡◌, ◌++◌, IfOk, OnOk, true};
ghost use Rattle.std.specs.List.{list_all};
ghost use Rattle.serde_json.specs.View.{view};
ghost use Rattle.serde_json.specs.Written.{comma_if, compact_text};
ghost use Rattle.retro_log.specs.LogText.{line_data, lines_data};
ghost use Rattle.retro_json.specs.ReadBack.{IsReadBack};
ghost use Rattle.retro_json.specs.Typed.{line_typed};

use retro_json::{hex_value, notes_value, number_value, push_value};
use retro_keep::Noted;
use retro_tree::NoMem;
use serde_json::{Value, json};
use std::alloc::Global;

/// Returns the JSON value of a line: `[number,sid,text,notes,"hex"]`.
#[tactic(auto, unfolding(crate::specs::LogText::line_data, retro_json::specs::Typed::line_typed))]
fn line_value(alloc: Global, number: u32, noted: &Noted) -> Result<Value, NoMem>
    ensures value { IfOk result (λ v. view v ≡ line_data (number, noted.now)) }
    ensures typed { OnOk result (line_typed (number, noted.now) ≡ true) }
{
    let number = number_value(number);
    let sid = number_value(noted.sid);
    let notes = notes_value(alloc, noted.notes.as_slice())?;
    let output = hex_value(alloc, noted.output.as_slice())?;
    json!(in alloc; [number, sid, noted.text.as_str(), notes, output])
}

/// Appends a line to a text, preceded by a comma if `later`.
fn push_line(
    alloc: Global,
    later: bool,
    number: u32,
    noted: &Noted,
    text: &mut Vec<u8>,
) -> Result<(), NoMem>
    ensures text { OnOk result (text.new.items
        ≡ text.old.items ++ (comma_if later ++ compact_text (line_data (number, noted.now)))) }
    ensures read_back { OnOk result (IsReadBack (line_data (number, noted.now))) }
    ensures typed { OnOk result (line_typed (number, noted.now) ≡ true) }
{
    if later {
        text.push(b',')?;
    }
    let line = line_value(alloc, number, noted)?;
    push_value(alloc, &line, text)
}

/// Appends the lines of a log to a text: a list of `[number,sid,text,notes,"hex"]`. Only one line
/// at a time is a JSON value.
pub fn push_lines(alloc: Global, lines: &[(u32, Noted)], text: &mut Vec<u8>) -> Result<(), NoMem>
    ensures text { OnOk result
        (text.new.items ≡ text.old.items ++ compact_text (lines_data lines.now)) }
    ensures read_back { OnOk result (IsReadBack (lines_data lines.now)) }
    ensures typed { OnOk result (list_all line_typed lines.now ≡ true) }
{
    text.push(b'[')?;
    let mut later = false;
    for (number, noted) in lines {
        push_line(alloc, later, *number, noted, text)?;
        later = true;
    }
    text.push(b']')?;
    Ok(())
}
