//! What is shown of lines.
use casebook_about::Labels;
use casebook_screen::{Names, NoMem, row_lines, row_numbers, row_table};
use casebook_text::{list_of_numbers, text_of_lines, text_of_rows};
use casebook_view::{Filters, LineRow, LineTest, Source, rows};
use retro_keep::Recording;
use retro_rows::text;
use std::alloc::Global;

/// The width of the column of names.
const WIDTH: usize = 7;

/// Returns tests that the lines from one number to another pass.
fn tests_of(alloc: Global, from: u32, to: u32) -> Result<Vec<LineTest>, NoMem> {
    let mut tests = Vec::new(alloc);
    tests.push(LineTest::From(from))?;
    tests.push(LineTest::To(to))?;
    Ok(tests)
}

/// Returns the rows of the lines from one number to another.
fn rows_between<'a>(
    alloc: Global,
    recording: &'a Recording,
    source: Source<'_>,
    (from, to): (u32, u32),
) -> Result<Vec<LineRow<'a>>, NoMem> {
    let mut filters = Filters {
        tests: tests_of(alloc, from, to)?,
        text: None,
        shown: None,
        is_unknown: false,
    };
    rows(alloc, recording, source, &mut filters)
}

/// Returns rows as the text of a table.
fn table_text(alloc: Global, found: &[LineRow<'_>], labels: &Labels) -> Result<String, NoMem> {
    let table = row_table(alloc, found, labels)?;
    text_of_rows(alloc, table.as_slice())
}

/// Returns rows as the text that a terminal shows.
fn screen_text(alloc: Global, found: &[LineRow<'_>], labels: &Labels) -> Result<String, NoMem> {
    let width = WIDTH;
    let lines = row_lines(alloc, found, Names { labels, width })?;
    text_of_lines(alloc, lines.as_slice())
}

/// Returns the numbers of rows as a list.
fn list_text(alloc: Global, found: &[LineRow<'_>]) -> Result<String, NoMem> {
    let numbers = row_numbers(alloc, found)?;
    text(alloc, list_of_numbers(alloc, numbers.as_slice())?.as_str())
}

/// Returns the lines from one number to another as a table, as a screen or as a list of numbers.
pub fn lines(
    alloc: Global,
    (recording, source): (&Recording, Source<'_>),
    labels: &Labels,
    form: &str,
    between: (u32, u32),
) -> Result<String, NoMem> {
    let found = rows_between(alloc, recording, source, between)?;
    match form {
        "table" => table_text(alloc, found.as_slice(), labels),
        "screen" => screen_text(alloc, found.as_slice(), labels),
        _ => list_text(alloc, found.as_slice()),
    }
}
