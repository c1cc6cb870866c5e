//! The calls of rows.
use crate::history::push_rows;
use casebook_spool::{Content, Lines, Listing, read_lines, read_listing};
use casebook_typed::{
    Extent, LineName, Owner, PathChange, Session, TypedError, TypedLine, typed_lines,
};
use retro_path::{NoMem, Path};
use retro_rows::fail;
use std::alloc::Global;
use std::test::Fail;

/// Returns the listing that a field says.
fn listing(alloc: Global, field: &str) -> Result<Listing, Fail> {
    let mut rows = String::new(alloc);
    let count = push_rows(alloc, &mut rows, field)?;
    let text = format!(in alloc; "listing\t0\t{count}\n{}", rows.as_str())?;
    match read_listing(alloc, text.as_bytes())? {
        Some(listing) => Ok(listing),
        None => fail("no listing"),
    }
}

/// Returns what a field says as the file `lines`.
fn lines(alloc: Global, field: &str) -> Result<Lines, Fail> {
    let mut rows = String::new(alloc);
    push_rows(alloc, &mut rows, field)?;
    Ok(read_lines(alloc, rows.as_bytes())?)
}

/// Appends a text after `; `, if it isn't the first one.
fn push_after(out: &mut String, text: &str) -> Result<(), NoMem> {
    if !out.is_empty() {
        out.push_str("; ")?;
    }
    out.push_str(text)
}

/// Appends the name of a line after a word.
fn push_name(alloc: Global, out: &mut String, word: &str, name: LineName) -> Result<(), NoMem> {
    let text = format!(in alloc; "{word}{}.{}", name.session, name.number)?;
    out.push_str(text.as_str())
}

/// Appends paths, each after a word.
fn push_paths(out: &mut String, word: &str, paths: &[Path]) -> Result<(), NoMem> {
    for path in paths {
        out.push_str(word)?;
        out.push_str(path.as_str())?;
    }
    Ok(())
}

/// Appends a change: the path, `gone` if it is, and the target of a link.
fn push_change(alloc: Global, out: &mut String, change: &PathChange<'_>) -> Result<(), Fail> {
    out.push(' ')?;
    out.push_str(change.path.as_str())?;
    if change.sight.is_none() {
        out.push_str(" gone")?;
    }
    if let Some(Content::Target(target)) = change.content {
        let target = str::from_utf8(target.as_slice())?;
        out.push_str(" to ")?;
        out.push_str(target)?;
    }
    Ok(())
}

/// Returns the word of an extent.
fn extent_text(extent: Extent) -> &'static str {
    match extent {
        Extent::Whole => "whole",
        Extent::Part => "part",
        Extent::CutOff => "cut off",
    }
}

/// Returns a line as a text: whose it is, how much of it, its text, and what it did.
fn line_text(alloc: Global, line: &TypedLine<'_>) -> Result<String, Fail> {
    let mut out = String::new(alloc);
    match line.owner {
        Owner::Nobody => out.push_str("nobody")?,
        Owner::Line(name) => push_name(alloc, &mut out, "", name)?,
    }
    out.push(' ')?;
    out.push_str(extent_text(line.extent))?;
    if let Some(text) = line.text {
        let text = str::from_utf8(text.as_slice())?;
        out.push_str(" [")?;
        out.push_str(text)?;
        out.push(']')?;
    }
    for change in &line.seen.changes {
        push_change(alloc, &mut out, change)?;
    }
    push_paths(&mut out, " read ", line.seen.read.as_slice())?;
    push_paths(&mut out, " listed ", line.seen.listed.as_slice())?;
    for name in &line.overlapping {
        push_name(alloc, &mut out, " or ", *name)?;
    }
    Ok(out)
}

/// Returns a session as a text: its name, and the place of its parent if it started.
fn session_text(alloc: Global, session: &Session<'_>) -> Result<String, Fail> {
    let name = str::from_utf8(session.name.as_slice())?;
    let text = match session.start {
        Some(_) => format!(in alloc; "{name} from {}", session.parent)?,
        None => String::from_str(alloc, name)?,
    };
    Ok(text)
}

/// Returns the refusal of a spool as a text.
fn error_text(alloc: Global, error: TypedError) -> Result<String, Fail> {
    Ok(format!(in alloc; "{error}")?)
}

/// Returns the lines of a history as text, or `nothing`.
pub fn lines_of(alloc: Global, first: &str, history: &str) -> Result<String, Fail> {
    let first = listing(alloc, first)?;
    let lines = lines(alloc, history)?;
    let typed = match typed_lines(alloc, &first, &lines) {
        Ok(typed) => typed,
        Err(TypedError::NoMem) => return Err(NoMem)?,
        Err(error) => return error_text(alloc, error),
    };
    let mut out = String::new(alloc);
    for line in &typed.lines {
        push_after(&mut out, line_text(alloc, line)?.as_str())?;
    }
    if out.is_empty() {
        out.push_str("nothing")?;
    }
    Ok(out)
}

/// Returns the sessions of a history as text.
pub fn sessions_of(alloc: Global, history: &str) -> Result<String, Fail> {
    let first = listing(alloc, "none")?;
    let lines = lines(alloc, history)?;
    let typed = typed_lines(alloc, &first, &lines)?;
    let mut out = String::new(alloc);
    for session in &typed.sessions {
        push_after(&mut out, session_text(alloc, session)?.as_str())?;
    }
    Ok(out)
}
