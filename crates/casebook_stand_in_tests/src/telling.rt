//! Told lines, as text.
use crate::words::{bytes, effect_of, spaced, state_of};
use casebook_explain::{LineFault, Noting, SeenLine, TellFault, Told, ToldLine, tell_lines};
use retro_keep::Recording;
use retro_rows::{cell, cell_text, fail, path, value_text};
use retro_tree::{Ask, Note, Text};
use std::alloc::Global;
use std::test::Fail;

/// Returns the line that a field says: its text, which is understood if a `=` is before it, then
/// what it read (`<PATH`) and listed (`*PATH`), and the words of its effect.
fn line_of(alloc: Global, given: &str) -> Result<SeenLine, Fail> {
    let Some((text, did)) = given.split_once(" ") else {
        return fail("a line has a text and an effect");
    };
    let is_understood = text.starts_with("=");
    let text = spaced(alloc, text.strip_prefix("=").unwrap_or(text))?;
    let (mut read, mut listed) = (Vec::new(alloc), Vec::new(alloc));
    let mut effect = String::new(alloc);
    for word in did.split(" ") {
        if let Some(at) = word.strip_prefix("<") {
            read.push(path(alloc, at)?)?;
        } else if let Some(at) = word.strip_prefix("*") {
            listed.push(path(alloc, at)?)?;
        } else {
            if !effect.is_empty() {
                effect.push(' ')?;
            }
            effect.push_str(word)?;
        }
    }
    Ok(SeenLine {
        text: bytes(alloc, text.as_str())?,
        typed: if is_understood {
            Some(Text::of(text))
        } else {
            None
        },
        read,
        listed,
        effect: effect_of(alloc, effect.as_str())?,
    })
}

/// Appends what a query asks.
fn push_ask(out: &mut String, alloc: Global, ask: &Ask) -> Result<(), Fail> {
    let text = match ask {
        Ask::Bytes(path) => format!(in alloc; "{}", path.as_str())?,
        Ask::Names(path) => format!(in alloc; "{}/", path.as_str())?,
        Ask::VarOf(_, name) => format!(in alloc; "${}", name.as_str())?,
        Ask::CwdOf(_) => format!(in alloc; "directory")?,
        Ask::StatusOf(_) => format!(in alloc; "status")?,
        _ => return fail("no query of a need"),
    };
    out.push(' ')?;
    out.push_str(text.as_str())?;
    Ok(())
}

/// Appends a told line: whether it is modelled, its texts, and what it needs.
fn push_line(out: &mut String, alloc: Global, line: &ToldLine) -> Result<(), Fail> {
    out.push_str(if line.is_modelled {
        "modelled:"
    } else {
        "observed:"
    })?;
    for run in &line.runs {
        out.push_str(" [")?;
        out.push_str(run.text())?;
        out.push(']')?;
    }
    out.push_str(" needs")?;
    for need in &line.needs {
        push_ask(out, alloc, &need.ask)?;
    }
    out.push(';')?;
    Ok(())
}

/// Returns why lines can't be told, as text.
fn fault_text(alloc: Global, fault: &TellFault) -> Result<String, Fail> {
    Ok(match fault {
        TellFault::NoMem => return fail("no memory"),
        TellFault::LawlessState => format!(in alloc; "lawless")?,
        TellFault::TooManyLines => format!(in alloc; "too many lines")?,
        TellFault::Line(place, LineFault::UnknownSession) => {
            format!(in alloc; "{place}: unknown session")?
        }
        TellFault::Line(place, LineFault::Unwritten(cell)) => {
            let name = cell_text(alloc, cell)?;
            format!(in alloc; "{place}: unwritten {}", name.as_str())?
        }
        TellFault::Line(place, LineFault::Unexplained(cell)) => {
            let name = cell_text(alloc, cell)?;
            format!(in alloc; "{place}: unexplained {}", name.as_str())?
        }
    })
}

/// Tells lines from a state on.
fn tell(alloc: Global, state: &str, lines: &[String]) -> Result<Result<Told, TellFault>, Fail> {
    let mut seen = Vec::new(alloc);
    for line in lines {
        seen.push(line_of(alloc, line)?)?;
    }
    Ok(tell_lines(alloc, &state_of(alloc, state)?, seen))
}

/// Returns lines as they are told from a state on, or why they can't be.
pub fn told(alloc: Global, state: &str, lines: &[String]) -> Result<String, Fail> {
    match tell(alloc, state, lines)? {
        Ok(told) => {
            let mut out = String::new(alloc);
            for line in told.lines() {
                push_line(&mut out, alloc, line)?;
            }
            Ok(out)
        }
        Err(fault) => fault_text(alloc, &fault),
    }
}

/// Returns the recording of told lines.
fn recording(
    alloc: Global,
    noting: Noting,
    state: &str,
    lines: &[String],
) -> Result<Recording, Fail> {
    match tell(alloc, state, lines)? {
        Ok(told) => match told.into_recording(alloc, noting) {
            Ok(recording) => Ok(recording),
            Err(_) => fail("no recording"),
        },
        Err(_) => fail("not told"),
    }
}

/// Appends the query of the first note, if it is one.
fn push_first(out: &mut String, alloc: Global, notes: &[Note]) -> Result<(), Fail> {
    match notes.first() {
        Some(Note::Asked(ask, _)) => push_ask(out, alloc, ask),
        _ => Ok(()),
    }
}

/// Returns the recording of told lines, each line with the query of its first note.
pub fn recorded(
    alloc: Global,
    noting: Noting,
    state: &str,
    lines: &[String],
) -> Result<String, Fail> {
    let mut out = String::new(alloc);
    for (number, noted) in recording(alloc, noting, state, lines)?.lines() {
        let row = format!(in alloc; "{number} [{}]", noted.text.as_str())?;
        out.push_str(row.as_str())?;
        push_first(&mut out, alloc, noted.notes.as_slice())?;
        out.push(';')?;
    }
    Ok(out)
}

/// Returns what a cell has in the first state of told lines and in the last one.
pub fn around(alloc: Global, state: &str, given: &[String]) -> Result<String, Fail> {
    let Some((name, lines)) = given.split_first() else {
        return fail("no cell");
    };
    let cell = cell(alloc, name)?;
    let recording = recording(alloc, Noting::WithNeeds, state, lines)?;
    let first = value_text(alloc, &recording.first().value(alloc, &cell)?)?;
    let last = value_text(alloc, &recording.last().value(alloc, &cell)?)?;
    Ok(format!(in alloc; "{}, {}", first.as_str(), last.as_str())?)
}
