//! Tables of rows: lines with their continuations and what they want, and headers.
use crate::row::Row;
use crate::row_error::RowError;
use retro_path::NoMem;
use std::alloc::Global;

/// Appends a continuation to a line: after one space, or in place of a `\` at its end.
fn push_continuation(line: &mut String, more: &str) -> Result<(), NoMem> {
    if line.ends_with('\\') {
        line.pop();
    } else {
        line.push(' ')?;
    }
    line.push_str(more)
}

/// Appends to a row a line of what it wants, with its newline. A space before the line isn't part
/// of it.
fn push_wanted(row: &mut String, line: &str) -> Result<(), NoMem> {
    if row.ends_with(" =>") {
        row.push(' ')?;
    }
    row.push_str(line.strip_prefix(' ').unwrap_or(line))?;
    row.push_str("%(NL)")
}

/// Returns the lines of a table that aren't empty, each with its continuations.
fn joined_lines(alloc: Global, table: &str) -> Result<Vec<String>, NoMem> {
    let mut joined: Vec<String> = Vec::new(alloc);
    for line in table.lines() {
        match (
            line.strip_prefix("  "),
            line.strip_prefix('|'),
            joined.last_mut(),
        ) {
            (Some(more), _, Some(above)) => push_continuation(above, more.trim_start_matches(' '))?,
            (_, Some(wanted), Some(above)) => push_wanted(above, wanted)?,
            _ if line.is_empty() => {}
            _ => joined.push(String::from_str(alloc, line)?)?,
        }
    }
    Ok(joined)
}

/// Returns the row of a line that begins with `- ` and whose first fields are in a header.
fn below_header(alloc: Global, header: Option<&str>, line: &str) -> Result<String, RowError> {
    let given = header.ok_or(RowError::NoHeader)?;
    let (call, rest) = line.split_once(": ").ok_or(RowError::NoCall)?;
    Ok(format!(in alloc; "{call}: {given} :: {rest}")?)
}

/// Reads the row of a line, with the first fields of the header above it if it begins with `- `.
fn read_line(alloc: Global, header: Option<&str>, line: &str) -> Result<Row, RowError> {
    match line.strip_prefix("- ") {
        Some(line) => Row::read(alloc, below_header(alloc, header, line)?),
        None => Row::read(alloc, String::from_str(alloc, line)?),
    }
}

/// Reads the rows of a table.
pub fn rows(alloc: Global, table: &str) -> Result<Vec<Row>, RowError> {
    let lines = joined_lines(alloc, table)?;
    let mut rows = Vec::new(alloc);
    let mut header = None;
    for line in &lines {
        match line.strip_prefix("given: ") {
            Some(given) => header = Some(given),
            None => rows.push(read_line(alloc, header, line)?)?,
        }
    }
    Ok(rows)
}
