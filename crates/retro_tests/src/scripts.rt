//! States and lines as scripts.
use crate::changes::changed;
use retro_keep::{Script, ScriptFault, ScriptLine};
use retro_rows::{fail, text};
use retro_tree::{NoMem, Text};
use std::alloc::Global;
use std::test::Fail;

/// Returns the line with the number and the session that a text says.
fn line(alloc: Global, given: &str) -> Result<ScriptLine, Fail> {
    let Some((number, sid)) = given.split_once(' ') else {
        return fail("a line without its session");
    };
    let (number, sid) = (number.parse()?, sid.parse()?);
    let text = Text::of(text(alloc, "echo a > f")?);
    Ok(ScriptLine { number, sid, text })
}

/// Returns the lines that a text says.
fn lines(alloc: Global, given: &str) -> Result<Vec<ScriptLine>, Fail> {
    let mut lines = Vec::new(alloc);
    for each in given.split(", ") {
        lines.push(line(alloc, each)?)?;
    }
    Ok(lines)
}

/// Returns the number of a refusal.
fn refusal(fault: ScriptFault) -> &'static str {
    match fault {
        ScriptFault::NumbersNotRising => "8",
        ScriptFault::UnknownSession => "9",
        ScriptFault::LawlessTree => "10",
        ScriptFault::OverLimit => "11",
        ScriptFault::NoMem => "out of memory",
    }
}

/// Returns the refusal's number, or the number of lines of a script.
fn script_text(alloc: Global, script: Result<Script, ScriptFault>) -> Result<String, NoMem> {
    match script {
        Ok(script) => format!(in alloc; "script {}", script.lines().len()),
        Err(fault) => text(alloc, refusal(fault)),
    }
}

/// Makes a script of the state after these changes and of these lines. Returns the refusal's
/// number, or the number of the script's lines. A line is given as its number and its session.
pub fn parts(alloc: Global, changes: &str, given: &str) -> Result<String, Fail> {
    let lines = lines(alloc, given)?;
    let script = Script::new(alloc, changed(alloc, changes)?, lines);
    Ok(script_text(alloc, script)?)
}
