//! Writes the document of a script.
ghost use Rattle.std.specs.Prelude.{◌≡◌, IfOk, Ok, OnOk, true};
ghost use Rattle.std.specs.List.{list_all};
ghost use Rattle.serde_json.specs.View.{view};
ghost use Rattle.retro_json.specs.NoNul.{tree_without_nul};
ghost use Rattle.retro_json.specs.Typed.{sessions_typed, tree_typed};
ghost use Rattle.retro_log.specs.Document.{script_in};
ghost use Rattle.retro_tree.specs.Lawful.{is_lawful_tree};
ghost use Rattle.casebook_script.specs.Reads.{Reads};
ghost use Rattle.casebook_script.specs.Scripts.{IsReadAs, line_data, lines_data, script_data};
ghost use Rattle.casebook_script.specs.Scripts.{script_of_tables, script_text, script_text_of};
ghost use Rattle.casebook_script.specs.Scripts.{script_with};
ghost use Rattle.casebook_script.specs.inner.Readable.{IsReadable, line_typed};

use crate::NoMem;
use crate::fault::TableFault;
use crate::lines::lines_in;
use crate::sessions::sessions_in;
use retro_json::{number_value, sessions_value, tree_value};
use retro_keep::ScriptLine;
use retro_tree::State;
use serde_json::{Value, json};
use std::alloc::Global;

/// Returns the value of a line: `[number,session,text]`.
#[tactic(auto, unfolding(crate::specs::Scripts::line_data))]
fn line_value(alloc: Global, line: &ScriptLine) -> Result<Value, NoMem>
    ensures value { IfOk result (λ v. view v ≡ line_data line.now) }
    ensures typed { OnOk result (line_typed line.now ≡ true) }
{
    let number = number_value(line.number);
    let sid = number_value(line.sid);
    json!(in alloc; [number, sid, line.text.as_str()])
}

/// Returns the value of lines, in their order.
#[tactic(auto, unfolding(crate::specs::Scripts::lines_data))]
fn lines_value(alloc: Global, lines: &[ScriptLine]) -> Result<Value, NoMem>
    ensures value { IfOk result (λ v. view v ≡ lines_data lines.now) }
    ensures typed { OnOk result (list_all line_typed lines.now ≡ true) }
{
    let mut values = Vec::new(alloc);
    for line in lines {
        values.push(line_value(alloc, line)?)?;
    }
    Ok(Value::Array(values))
}

/// Returns the value of the script of a tree, sessions and lines.
#[tactic(auto, unfolding(crate::specs::Scripts::script_data))]
fn script_value(
    alloc: Global,
    tree: &State,
    sessions: &State,
    lines: &[ScriptLine],
) -> Result<Value, NoMem>
    ensures value { IfOk result (λ v. view v
        ≡ script_data (script_with tree.now.tree sessions.now.sessions lines.now)) }
    ensures tree { OnOk result (tree_typed tree.now.tree ≡ true) }
    ensures sessions { OnOk result (sessions_typed sessions.now.sessions ≡ true) }
    ensures lines { OnOk result (list_all line_typed lines.now ≡ true) }
{
    let lines = lines_value(alloc, lines)?;
    let sessions = sessions_value(alloc, sessions)?;
    let tree = tree_value(alloc, tree)?;
    json!(in alloc; {"lines": lines, "script": 1, "sessions": sessions, "tree": tree})
}

/// Returns the document of the script of a tree, sessions and lines.
fn write_script(
    alloc: Global,
    tree: &State,
    sessions: &State,
    lines: &[ScriptLine],
) -> Result<Vec<u8>, NoMem>
    ensures text { IfOk result (λ text. text.items
        ≡ script_text (script_with tree.now.tree sessions.now.sessions lines.now)) }
    ensures again { IfOk result (λ text.
        IsReadable (script_with tree.now.tree sessions.now.sessions lines.now)
        → script_in text.items
        ≡ Ok (script_with tree.now.tree sessions.now.sessions lines.now)) }
{
    let value = script_value(alloc, tree, sessions, lines)?;
    let mut text = value.to_vec(alloc)?;
    text.push(b'\n')?;
    Ok(text)
}

/// Returns the document of the script with the tree of `tree`, and the sessions and the lines of
/// two tables: compact JSON (RFC 8259) with keys in byte order, and a newline. The sessions of
/// `tree` are ignored.
///
/// A table is UTF-8, and each of its rows ends in a newline, which the last row may lack. A row
/// that is empty or begins with `#` is skipped. Tabs separate the cells of a row. In a cell `\t`,
/// `\n`, `\r` and `\\` stand for a tab, a newline, a carriage return and a backslash.
///
/// - A row of sessions is `NUMBER TAB DIRECTORY [TAB NAME=VALUE]..`. The session's status is 0.
/// - A row of lines is `SESSION TAB TEXT`. Lines are numbered from 1, in the order of their rows.
///
/// [`read_script`](retro_log::read_script) reads the document as this script if the tree is lawful
/// and no name in it has a NUL.
///
/// # Errors
///
/// The first fault of the table of sessions, and then of the table of lines: `NotUtf8` if it isn't
/// UTF-8, and otherwise `BadRow` for the first row that isn't one.
pub fn script_of_tables(
    alloc: Global,
    tree: &State,
    sessions: &[u8],
    lines: &[u8],
) -> Result<Vec<u8>, TableFault>
    ensures text { Reads (λ text. text.items) result
        (script_text_of tree.now.tree sessions.now lines.now) }
    ensures again { IfOk result (λ text. is_lawful_tree tree.now.tree ≡ true
        → tree_without_nul tree.now.tree ≡ true
        → IsReadAs (script_of_tables tree.now.tree sessions.now lines.now) text.items) }
{
    let sessions = sessions_in(alloc, sessions)?;
    let lines = lines_in(alloc, &sessions, lines)?;
    Ok(write_script(alloc, tree, &sessions, lines.as_slice())?)
}
