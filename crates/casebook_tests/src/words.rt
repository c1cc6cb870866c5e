//! Queries, notes, files and names in words.
use crate::diffs::sign;
use crate::values::{answer, ask, node, variable};
use casebook_about::Labels;
use casebook_text::SafeLine;
use casebook_words::{
    FileLines, count_added, count_removed, push_difference, push_first_line, push_note, push_query,
};
use retro_rows::{fail, numbered, path, text};
use retro_tree::{Answer, Ask, Bytes, Change, NoMem, Note, State, Text};
use std::alloc::Global;
use std::test::Fail;

/// Returns a query in words, and how two answers differ.
fn difference_text(
    alloc: Global,
    query: &Ask,
    old: &Answer,
    new: &Answer,
) -> Result<String, NoMem> {
    let mut line = SafeLine::new(alloc);
    push_query(alloc, &mut line, query)?;
    push_difference(alloc, &mut line, old, new)?;
    text(alloc, line.as_str())
}

/// Returns the query of a row in words, and how its answers differ.
pub fn difference(alloc: Global, query: &str, old: &str, new: &str) -> Result<String, Fail> {
    let query = ask(alloc, query)?;
    let (old, new) = (answer(alloc, &query, old)?, answer(alloc, &query, new)?);
    Ok(difference_text(alloc, &query, &old, &new)?)
}

/// Returns a change: what is changed, and the value.
fn change(alloc: Global, what: &str, value: &str) -> Result<Change, Fail> {
    let Some((kind, of)) = what.split_once(' ') else {
        return fail("a change has no object");
    };
    match kind {
        "put" => Ok(Change::Put(path(alloc, of)?, node(alloc, value)?)),
        "grow" => Ok(Change::Grow(
            path(alloc, of)?,
            Bytes::of(Vec::from_slice(alloc, value.as_bytes())?),
        )),
        "set" => Ok(Change::SetVar(2, variable(alloc, of)?, Text::of(text(alloc, value)?))),
        "cwd" => Ok(Change::SetCwd(of.parse()?, path(alloc, value)?)),
        "status" => Ok(Change::SetStatus(of.parse()?, value.parse()?)),
        _ => fail("no change"),
    }
}

/// Returns a note: a query with its answer, or a change.
fn note_of(alloc: Global, what: &str, value: &str) -> Result<Note, Fail> {
    match what.strip_prefix("asked ") {
        Some(query) => {
            let query = ask(alloc, query)?;
            let answer = answer(alloc, &query, value)?;
            Ok(Note::Asked(query, answer))
        }
        None => Ok(Note::Made(change(alloc, what, value)?)),
    }
}

/// Returns a note in words.
fn note_text(alloc: Global, note: &Note) -> Result<String, NoMem> {
    let mut line = SafeLine::new(alloc);
    push_note(alloc, &mut line, note)?;
    text(alloc, line.as_str())
}

/// Returns the note of a row in words.
pub fn note(alloc: Global, what: &str, value: &str) -> Result<String, Fail> {
    let note = note_of(alloc, what, value)?;
    Ok(note_text(alloc, &note)?)
}

/// Returns merged lines with their marks, and how many are added and removed.
fn merged_text(alloc: Global, lines: &FileLines) -> Result<String, NoMem> {
    let merged = lines.merged(alloc)?;
    let mut text = String::new(alloc);
    for (index, (mark, line)) in merged.iter().enumerate() {
        if index > 0 {
            text.push(',')?;
        }
        text.push(sign(*mark))?;
        text.push_str(line)?;
    }
    let added = count_added(merged.as_slice());
    let removed = count_removed(merged.as_slice());
    format!(in alloc; "{text} {added} {removed}")
}

/// Returns the merged lines of two texts.
pub fn merged(alloc: Global, old: &str, new: &str) -> Result<String, NoMem> {
    let lines = FileLines::of_bytes(alloc, old.as_bytes(), new.as_bytes())?;
    merged_text(alloc, &lines)
}

/// Returns a state with a node at `/f`.
fn state(alloc: Global, given: &str) -> Result<State, Fail> {
    let mut state = State::empty(alloc)?;
    state.place(path(alloc, "/f")?, node(alloc, given)?)?;
    Ok(state)
}

/// Returns the merged lines of two nodes at a path.
pub fn files(alloc: Global, old: &str, new: &str) -> Result<String, Fail> {
    let (old, new) = (state(alloc, old)?, state(alloc, new)?);
    let lines = FileLines::of(alloc, old.tree(), new.tree(), &path(alloc, "/f")?)?;
    Ok(merged_text(alloc, &lines)?)
}

/// Returns the first line of a text, cut to 3 bytes.
pub fn first(alloc: Global, given: &str) -> Result<String, NoMem> {
    let mut line = SafeLine::new(alloc);
    push_first_line(alloc, &mut line, given.as_bytes(), 3)?;
    text(alloc, line.as_str())
}

/// Returns labels with names of sessions.
fn labels_of(alloc: Global, names: &str) -> Result<Labels, Fail> {
    let mut labels = Labels::none(alloc);
    for (session, name) in numbered(alloc, names)? {
        if let Some(name) = name {
            labels.add_name(session, name)?;
        }
    }
    Ok(labels)
}

/// Adds times of lines.
fn add_times(alloc: Global, labels: &mut Labels, times: &str) -> Result<(), Fail> {
    for (number, time) in numbered(alloc, times)? {
        if let Some(time) = time {
            labels.add_time(number, time)?;
        }
    }
    Ok(())
}

/// Returns what a session or the time of a line is called.
fn label_of(alloc: Global, labels: &Labels, call: &str, number: u32) -> Result<SafeLine, NoMem> {
    match call {
        "name" => labels.name_of(alloc, number),
        _ => labels.time_of(alloc, number),
    }
}

/// Returns what a session or the time of a line is called by labels with these names and times.
pub fn label(
    alloc: Global,
    call: &str,
    names: &str,
    times: &str,
    of: &str,
) -> Result<String, Fail> {
    let number = of.parse()?;
    let mut labels = labels_of(alloc, names)?;
    add_times(alloc, &mut labels, times)?;
    let label = label_of(alloc, &labels, call, number)?;
    Ok(text(alloc, label.as_str())?)
}
