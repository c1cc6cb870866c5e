//! The calls of rows.
use crate::lines::{line_text, trace};
use crate::states::{SESSION, state};
use crate::texts::{ask_text, bytes_text, note_text, push_after, shown, source_text};
use casebook_needs::{Need, ObservedLine, needs_of, paths_of, variables_of, words_of};
use retro_path::{Text, VarName};
use retro_rows::path;
use std::alloc::Global;
use std::test::Fail;

/// Returns the needs of a line by its text, the state in which it began, and what it did.
fn needs_in(alloc: Global, line: &str, before: &str, did: &str) -> Result<Vec<Need>, Fail> {
    let text = line_text(alloc, line)?;
    let (state, cwd) = state(alloc, before)?;
    let trace = trace(alloc, did)?;
    let shell = trace.shell.as_ref();
    let line = ObservedLine {
        text: text.as_slice(),
        session: SESSION,
        directory: &cwd,
        read: trace.read.as_slice(),
        listed: trace.listed.as_slice(),
        effects: trace.effects.as_slice(),
        shell,
    };
    Ok(needs_of(alloc, &state, &line)?)
}

/// Returns the needs of a line, with their sources and as notes.
pub fn needs(alloc: Global, line: &str, before: &str, did: &str) -> Result<String, Fail> {
    let mut out = String::new(alloc);
    for need in needs_in(alloc, line, before, did)? {
        let source = source_text(alloc, &need.source)?;
        let note = note_text(alloc, &need.into_note())?;
        push_after(
            &mut out,
            "; ",
            format!(in alloc; "{}: {}", source.as_str(), note.as_str())?.as_str(),
        )?;
    }
    Ok(out)
}

/// Returns the queries of the needs that come from a source, or `nothing`.
pub fn from(
    alloc: Global,
    source: &str,
    line: &str,
    before: &str,
    did: &str,
) -> Result<String, Fail> {
    let mut out = String::new(alloc);
    for need in &needs_in(alloc, line, before, did)? {
        if source_text(alloc, &need.source)?.as_str() == source {
            push_after(&mut out, ", ", ask_text(alloc, &need.ask)?.as_str())?;
        }
    }
    if out.is_empty() {
        out.push_str("nothing")?;
    }
    Ok(out)
}

/// Returns the words of a text that aren't empty.
pub fn words(alloc: Global, line: &str) -> Result<String, Fail> {
    let text = line_text(alloc, line)?;
    let mut out = String::new(alloc);
    for word in &words_of(alloc, text.as_slice())? {
        if !word.is_empty() {
            push_after(&mut out, " ", bytes_text(alloc, word)?.as_str())?;
        }
    }
    Ok(out)
}

/// Returns the paths that a text names from a directory, by the value of `HOME`, or by none.
pub fn paths(alloc: Global, directory: &str, home: &str, line: &str) -> Result<String, Fail> {
    let text = line_text(alloc, line)?;
    let value = if home == "unset" {
        None
    } else {
        Some(Text::of(String::from_str(alloc, home)?))
    };
    let directory = path(alloc, directory)?;
    let mut out = String::new(alloc);
    for path in &paths_of(alloc, &directory, value.as_ref(), text.as_slice())? {
        push_after(&mut out, ", ", shown(alloc, path)?.as_str())?;
    }
    Ok(out)
}

/// Returns the variables that a text names.
pub fn variables(alloc: Global, line: &str) -> Result<String, Fail> {
    let text = line_text(alloc, line)?;
    let mut out = String::new(alloc);
    for name in &variables_of(alloc, text.as_slice())? {
        push_after(&mut out, " ", VarName::as_str(name))?;
    }
    Ok(out)
}
