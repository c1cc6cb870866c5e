//! Rows of a recording.
ghost use Rattle.std.specs.Prelude.{◌≡◌, ◌++◌, IfOk, OnOk, map};
ghost use Rattle.casebook_view.specs.Rows.{row_value};
ghost use Rattle.casebook_screen.specs.Fields.{write_field};
ghost use Rattle.casebook_screen.specs.Rows.{done_by_row, head_of_row, mark_told, output_told};
ghost use Rattle.casebook_screen.specs.Rows.{row_told, rows_told};
ghost use Rattle.casebook_screen.specs.Screen.{IsScreen};
ghost use Rattle.casebook_screen.specs.Told.{path_told};
ghost use Rattle.casebook_screen.specs.declared.piece.Piece.TheVariants.{Text as Told};

use crate::NoMem;
use crate::lines::bytes_line;
use crate::names::Names;
use crate::screen::Screen;
use crate::shown::{INDENT, is_observed, push_name, push_obstacle, push_paths, push_time};
use crate::table::write_line;
use casebook_text::SafeLine;
use casebook_view::{LineRow, Obstacle, PathWrite};
use casebook_words::push_first_line;
use retro_tree::Path;
use std::alloc::Global;

/// The width of the column of numbers.
const NUMBER_WIDTH: usize = 5;

/// How many bytes of an output are shown.
const SHOWN_LIMIT: usize = 60;

/// Appends an `o` if a line stands as it was observed, and a question mark if it isn't understood.
/// If `has_marks`, there is a column for them.
fn push_mark(
    screen: &mut Screen,
    alloc: Global,
    has_marks: bool,
    obstacle: Option<Obstacle>,
) -> Result<(), NoMem>
    ensures { OnOk result (screen.new ≡ screen.old ++ mark_told obstacle) }
{
    match obstacle {
        Some(obstacle) if is_observed(obstacle) => screen.said(alloc, " o"),
        Some(_) => screen.said(alloc, " ?"),
        None if has_marks => screen.words("  "),
        None => Ok(()),
    }
}

/// Appends the number, the mark, the time, the session and the text of a line.
fn push_head(
    screen: &mut Screen,
    alloc: Global,
    row: &LineRow<'_>,
    names: Names<'_>,
    has_marks: bool,
) -> Result<(), NoMem>
    ensures { OnOk result (screen.new
        ≡ screen.old ++ head_of_row names.entry.labels.now (row_value row.now)) }
{
    screen.column(alloc, u64::from(row.number), NUMBER_WIDTH)?;
    push_mark(screen, alloc, has_marks, row.obstacle)?;
    push_time(screen, names.labels.time_of(alloc, row.number)?)?;
    screen.words(" ")?;
    push_name(screen, alloc, names, row.session)?;
    screen.words(" ")?;
    screen.text(bytes_line(alloc, row.text.bytes())?)?;
    screen.end()
}

/// Appends the paths that a line read, if it read any.
fn push_read(screen: &mut Screen, alloc: Global, paths: &[Path]) -> Result<(), NoMem>
    ensures { OnOk result (screen.new ≡ screen.old ++ map path_told paths.now) }
{
    if paths.is_empty() {
        return Ok(());
    }
    screen.spaces(INDENT)?;
    screen.words("read ")?;
    push_paths(screen, alloc, paths)?;
    screen.end()
}

/// Appends writes, each after a space.
fn push_writes(screen: &mut Screen, alloc: Global, writes: &[PathWrite]) -> Result<(), NoMem>
    ensures { OnOk result (screen.new
        ≡ screen.old ++ map (λ write. Told (write_field write)) writes.now) }
{
    for write in writes {
        screen.words(" ")?;
        screen.text(write_line(alloc, write)?)?;
    }
    Ok(())
}

/// Appends what a line wrote, if it wrote anything.
fn push_wrote(screen: &mut Screen, alloc: Global, writes: &[PathWrite]) -> Result<(), NoMem>
    ensures { OnOk result (screen.new
        ≡ screen.old ++ map (λ write. Told (write_field write)) writes.now) }
{
    if writes.is_empty() {
        return Ok(());
    }
    screen.spaces(INDENT)?;
    screen.words("wrote")?;
    push_writes(screen, alloc, writes)?;
    screen.end()
}

/// Appends how much a line printed, and the beginning of it, if it printed anything.
fn push_output(screen: &mut Screen, alloc: Global, output: &[u8]) -> Result<(), NoMem>
    ensures { OnOk result (screen.new ≡ screen.old ++ output_told output.now) }
{
    if output.is_empty() {
        return Ok(());
    }
    let mut first = SafeLine::new(alloc);
    push_first_line(alloc, &mut first, output, SHOWN_LIMIT)?;
    screen.spaces(INDENT)?;
    screen.words("shown ")?;
    screen.number(output.len() as u64)?;
    screen.words(" bytes: ")?;
    screen.text(first)?;
    screen.end()
}

/// Appends up to three lines, for what a line read, what it wrote and what it printed.
fn push_done(screen: &mut Screen, alloc: Global, row: &LineRow<'_>) -> Result<(), NoMem>
    ensures { OnOk result (screen.new ≡ screen.old ++ done_by_row (row_value row.now)) }
{
    push_read(screen, alloc, row.read.as_slice())?;
    push_wrote(screen, alloc, row.wrote.as_slice())?;
    push_output(screen, alloc, row.output.as_slice())
}

/// Appends a row: its head, why the line isn't understood if it isn't, and what it did.
fn push_row(
    screen: &mut Screen,
    alloc: Global,
    row: &LineRow<'_>,
    names: Names<'_>,
    has_marks: bool,
) -> Result<(), NoMem>
    ensures { OnOk result (screen.new
        ≡ screen.old ++ row_told names.entry.labels.now (row_value row.now)) }
{
    push_head(screen, alloc, row, names, has_marks)?;
    push_obstacle(screen, alloc, row.obstacle)?;
    push_done(screen, alloc, row)
}

/// Returns rows as the lines that a terminal shows: one to five for each. If some line isn't
/// understood or stands as it was observed, there is a column of marks: a question mark or an `o`.
pub fn row_lines(
    alloc: Global,
    rows: &[LineRow<'_>],
    names: Names<'_>,
) -> Result<Vec<SafeLine>, NoMem>
    ensures { IfOk result (λ lines. IsScreen
        (rows_told names.entry.labels.now (map row_value rows.now)) lines.items) }
{
    let has_marks = rows.iter().any(|row| row.obstacle.is_some());
    let mut screen = Screen::new(alloc);
    for row in rows {
        push_row(&mut screen, alloc, row, names, has_marks)?;
    }
    screen.lines(alloc)
}
