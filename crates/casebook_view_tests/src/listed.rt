//! Rows of lines as texts.
use crate::filters::{Patterns, tests_of, value_of};
use crate::given::{observed_of, seen_source};
use crate::words::{obstacle_word, push_item, write_sign};
use casebook_text::list_of_numbers;
use casebook_view::{Filters, LineRow, Source, rows};
use retro_keep::Recording;
use retro_rows::text;
use retro_tree::NoMem;
use std::alloc::Global;
use std::test::Fail;

/// Returns the numbers of rows as a list, or `none`.
fn numbers_text(alloc: Global, found: &[LineRow<'_>]) -> Result<String, NoMem> {
    if found.is_empty() {
        return text(alloc, "none");
    }
    let mut numbers = Vec::new(alloc);
    for row in found {
        numbers.push(row.number)?;
    }
    text(alloc, list_of_numbers(alloc, numbers.as_slice())?.as_str())
}

/// Returns the number of a row, and why its line isn't understood, or `none`.
fn obstacle_text(alloc: Global, row: &LineRow<'_>) -> Result<String, NoMem> {
    let word = match row.obstacle {
        Some(obstacle) => obstacle_word(obstacle),
        None => "none",
    };
    format!(in alloc; "{} {word}", row.number)
}

/// Returns rows with why their lines aren't understood.
fn obstacles_text(alloc: Global, found: &[LineRow<'_>]) -> Result<String, NoMem> {
    let mut out = String::new(alloc);
    for row in found {
        push_item(&mut out, ", ", obstacle_text(alloc, row)?.as_str())?;
    }
    Ok(out)
}

/// Returns a row as text: number, session, how many bytes are printed, paths that are read, and
/// writes.
fn row_text(alloc: Global, row: &LineRow<'_>) -> Result<String, NoMem> {
    let mut out = format!(in alloc; "{} {} {}", row.number, row.session, row.output.len())?;
    for path in &row.read {
        out.push(' ')?;
        out.push_str(path.as_str())?;
    }
    for write in &row.wrote {
        out.push(' ')?;
        out.push(write_sign(write.kind))?;
        out.push_str(write.path.as_str())?;
    }
    Ok(out)
}

/// Returns rows as lines.
fn rows_text(alloc: Global, found: &[LineRow<'_>]) -> Result<String, NoMem> {
    let mut out = String::new(alloc);
    for row in found {
        out.push_str(row_text(alloc, row)?.as_str())?;
        out.push('\n')?;
    }
    Ok(out)
}

/// Returns the rows that pass filters, as a call tells them.
fn told(
    alloc: Global,
    recording: &Recording,
    source: Source<'_>,
    filters: &mut Filters<'_>,
    call: &str,
) -> Result<String, NoMem> {
    let found = rows(alloc, recording, source, filters)?;
    match call {
        "lines" => numbers_text(alloc, found.as_slice()),
        "obstacles" => obstacles_text(alloc, found.as_slice()),
        _ => rows_text(alloc, found.as_slice()),
    }
}

/// Returns the rows of lines from a source that pass the filters of a row, as its call tells them.
fn listed_from(
    alloc: Global,
    recording: &Recording,
    source: Source<'_>,
    call: &str,
    fields: &[String],
) -> Result<String, Fail> {
    let is_unknown = value_of(fields, "only").is_some();
    let patterns = Patterns::of(alloc, fields)?;
    let tests = tests_of(alloc, fields)?;
    let mut filters = patterns.filters(alloc, tests, is_unknown)?;
    Ok(told(alloc, recording, source, &mut filters, call)?)
}

/// Returns the rows that pass the filters of a row, as its call tells them. The lines were played,
/// or seen if the row says which ones were observed.
pub fn listed(
    alloc: Global,
    recording: &Recording,
    call: &str,
    fields: &[String],
) -> Result<String, Fail> {
    match value_of(fields, "observed") {
        None => listed_from(alloc, recording, Source::Played, call, fields),
        Some(list) => {
            let observed = observed_of(alloc, list)?;
            let source = seen_source(observed.as_slice());
            listed_from(alloc, recording, source, call, fields)
        }
    }
}
