//! Lines that aren't understood or have to be run for real.
ghost use Rattle.std.specs.Prelude.{◌≡◌, ◌++◌, ◌∷◌, [], OnOk, drop, map, take};
ghost use Rattle.casebook_view.specs.Sources.{source_view};
ghost use Rattle.casebook_screen.specs.Told.{missing_told, numbered_told, played_told, to_run_told};
ghost use Rattle.casebook_screen.specs.Told.{unknown_list, unknown_told, with_told};
ghost use Rattle.casebook_screen.specs.declared.piece.Piece.TheVariants.{Number};

use crate::NoMem;
use crate::lines::ascii_line;
use crate::screen::Screen;
use crate::shown::{COUNT_WIDTH, push_numbers};
use casebook_summary::{Summary, obstacle_words};
use casebook_view::{Obstacle, Source};
use std::alloc::Global;

/// How many numbers are in a row.
const NUMBERS_IN_ROW: usize = 12;

/// The width of the column of obstacles.
const OBSTACLE_WIDTH: usize = 39;

/// How far the rows of numbers after the first one are indented.
const ROW_INDENT: usize = 48;

/// Appends that one line isn't understood, and whether it is cancelled.
fn push_one_missing(screen: &mut Screen, alloc: Global, cancelled: usize) -> Result<(), NoMem>
    ensures { OnOk result (screen.new ≡ screen.old ++ missing_told 1 cancelled) }
{
    screen.words("? ")?;
    screen.number(1)?;
    screen.words(" line wasn't understood, and ")?;
    if cancelled == 0 {
        screen.said(alloc, "isn't")?;
    } else {
        screen.said(alloc, "is")?;
    }
    screen.words(" cancelled. What it did isn't in this answer.")?;
    screen.end()
}

/// Appends how many lines aren't understood, and how many of them are cancelled.
fn push_missing(
    screen: &mut Screen,
    alloc: Global,
    count: usize,
    cancelled: usize,
) -> Result<(), NoMem>
    ensures { OnOk result (screen.new ≡ screen.old ++ missing_told count cancelled) }
{
    if count == 1 {
        return push_one_missing(screen, alloc, cancelled);
    }
    screen.words("? ")?;
    screen.number(count as u64)?;
    screen.words(" lines weren't understood, ")?;
    screen.number(cancelled as u64)?;
    screen.words(" of them cancelled. What they did isn't in this answer.")?;
    screen.end()
}

/// Returns the first numbers, at most as many as there are in a row.
fn first_numbers(numbers: &[u32]) -> &[u32]
    ensures { result.now ≡ take 12 numbers.entry.now }
{
    &numbers[..numbers.len().min(NUMBERS_IN_ROW)]
}

/// Returns the numbers after those of the first row.
fn other_numbers(numbers: &[u32]) -> &[u32]
    ensures { result.now ≡ drop 12 numbers.entry.now }
{
    &numbers[numbers.len().min(NUMBERS_IN_ROW)..]
}

/// Appends numbers in rows. The first row goes on with the line, and the others are indented.
fn push_rows(screen: &mut Screen, numbers: &[u32]) -> Result<(), NoMem>
    ensures { OnOk result (screen.new ≡ screen.old ++ map Number numbers.now) }
{
    push_numbers(screen, first_numbers(numbers))?;
    screen.end()?;
    let mut rest = other_numbers(numbers);
    while !rest.is_empty() {
        screen.spaces(ROW_INDENT)?;
        push_numbers(screen, first_numbers(rest))?;
        screen.end()?;
        rest = other_numbers(rest);
    }
    Ok(())
}

/// Appends all lines with an obstacle, in rows, if there are some.
fn push_numbered(
    screen: &mut Screen,
    alloc: Global,
    obstacle: Obstacle,
    numbers: &[u32],
) -> Result<(), NoMem>
    ensures { OnOk result (screen.new ≡ screen.old ++ numbered_told obstacle numbers.now) }
{
    if numbers.is_empty() {
        return Ok(());
    }
    let words = ascii_line(alloc, obstacle_words(obstacle, numbers.len()))?;
    screen.column(alloc, numbers.len() as u64, COUNT_WIDTH)?;
    screen.words("  ")?;
    screen.padded(words, OBSTACLE_WIDTH)?;
    push_rows(screen, numbers)
}

/// Appends the lines with an obstacle.
fn push_with(
    screen: &mut Screen,
    alloc: Global,
    summary: &Summary,
    obstacle: Obstacle,
) -> Result<(), NoMem>
    ensures { OnOk result (screen.new
        ≡ screen.old ++ with_told summary.now.unknown.items obstacle) }
{
    let numbers = summary.numbers_with(alloc, obstacle)?;
    push_numbered(screen, alloc, obstacle, numbers.as_slice())
}

/// Appends the lines by their obstacles.
fn push_list(screen: &mut Screen, alloc: Global, summary: &Summary) -> Result<(), NoMem>
    ensures { OnOk result (screen.new ≡ screen.old ++ unknown_list summary.now.unknown.items) }
{
    push_with(screen, alloc, summary, Obstacle::Command)?;
    push_with(screen, alloc, summary, Obstacle::Form)?;
    push_with(screen, alloc, summary, Obstacle::Expansion)?;
    push_with(screen, alloc, summary, Obstacle::Terminal)?;
    push_with(screen, alloc, summary, Obstacle::Need)
}

/// Appends which lines aren't understood, all of them by their obstacles, and which command shows
/// them, or that every line is understood.
fn push_played(screen: &mut Screen, alloc: Global, summary: &Summary) -> Result<(), NoMem>
    ensures { OnOk result (screen.new ≡ screen.old
        ++ played_told summary.now.unknown.items summary.now.lines) }
{
    if summary.unknown.is_empty() {
        screen.said(alloc, "Every line was understood.")?;
        return screen.end();
    }
    push_missing(
        screen,
        alloc,
        summary.unknown.len(),
        summary.unknown_cancelled(),
    )?;
    push_list(screen, alloc, summary)?;
    screen.words("  casebook lines LOG --unknown shows them.")?;
    screen.end()
}

/// Appends what holds of so many lines until they are run.
fn push_until(screen: &mut Screen, count: usize) -> Result<(), NoMem>
    ensures { OnOk result (screen.new ≡ screen.old) }
{
    if count == 1 {
        screen.words("  Until then it stands as it was observed.")?;
    } else {
        screen.words("  Until then they stand as they were observed.")?;
    }
    screen.end()
}

/// Appends how many lines have to be run.
fn push_to_run_head(screen: &mut Screen, count: usize) -> Result<(), NoMem>
    ensures { OnOk result (screen.new ≡ screen.old ++ Number count ∷ []) }
{
    screen.words("? ")?;
    screen.count(count, "line")?;
    if count == 1 {
        screen.words(" has to be run for real before this answer is whole.")?;
    } else {
        screen.words(" have to be run for real before this answer is whole.")?;
    }
    screen.end()
}

/// Appends which lines have to be run, all of them by their obstacles, and what holds until then,
/// or that no line has to.
fn push_to_run(screen: &mut Screen, alloc: Global, summary: &Summary) -> Result<(), NoMem>
    ensures { OnOk result (screen.new ≡ screen.old ++ to_run_told summary.now.unknown.items) }
{
    if summary.unknown.is_empty() {
        screen.said(alloc, "No line has to be run for real.")?;
        return screen.end();
    }
    push_to_run_head(screen, summary.unknown.len())?;
    push_list(screen, alloc, summary)?;
    push_until(screen, summary.unknown.len())
}

/// Appends which lines aren't understood if they were played, or which ones have to be run for real
/// if a recorder saw them.
pub(crate) fn push_unknown(
    screen: &mut Screen,
    alloc: Global,
    source: Source<'_>,
    summary: &Summary,
) -> Result<(), NoMem>
    ensures { OnOk result (screen.new ≡ screen.old ++ unknown_told (source_view source.entry)
        summary.now.unknown.items summary.now.lines) }
{
    match source {
        Source::Played => push_played(screen, alloc, summary),
        Source::Seen(_) => push_to_run(screen, alloc, summary),
    }
}
