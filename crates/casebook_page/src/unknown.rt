//! What a page rests on: the lines that weren't understood, or have to be run for real.
ghost use Rattle.std.specs.Prelude.{◌≡◌, ◌++◌, ◌∷◌, [], OnOk, map};
ghost use Rattle.casebook_view.specs.Sources.{source_view};
ghost use Rattle.casebook_summary.specs.Words.{obstacle_words};
ghost use Rattle.casebook_page.specs.Told.{has_row, missing_told, number_told, numbered_told};
ghost use Rattle.casebook_page.specs.Told.{unknown_count, unknown_list, unknown_told, with_told};
ghost use Rattle.casebook_page.specs.Views.{contents_view};
ghost use Rattle.casebook_html.specs.declared.piece.Piece.TheVariants.{Number, Text};

use crate::NoMem;
use crate::contents::Contents;
use crate::shown::push_link;
use casebook_html::{Html, Tag};
use casebook_summary::{Summary, obstacle_words};
use casebook_view::{Fate, Obstacle, Source, UnknownLine};
use std::alloc::Global;

/// Appends how many lines of a log that was played weren't understood, or how many of a machine's
/// have to be run for real: `1 line wasn't understood`.
fn push_count(html: &mut Html, source: Source<'_>, count: usize) -> Result<(), NoMem>
    ensures { OnOk result (html.new ≡ html.old ++ Number count ∷ []) }
{
    html.count(count, "line")?;
    match source {
        Source::Played if count == 1 => html.words(" wasn't understood"),
        Source::Played => html.words(" weren't understood"),
        Source::Seen(_) if count == 1 => html.words(" has to be run for real"),
        Source::Seen(_) => html.words(" have to be run for real"),
    }
}

/// Returns whether a line with a fate has a row.
fn has_row(shows_untouched: bool, fate: Option<Fate>) -> bool
    ensures { result ≡ has_row shows_untouched fate }
{
    match fate {
        None => true,
        Some(fate) => shows_untouched || fate != Fate::Untouched,
    }
}

/// Appends the number of a line, as a link if the page has a row of it.
fn push_number(html: &mut Html, contents: Contents<'_, '_>, number: u32) -> Result<(), NoMem>
    ensures { OnOk result (html.new ≡ html.old
        ++ number_told (contents_view contents.entry) number ∷ []) }
{
    html.words(" ")?;
    if has_row(contents.shows_untouched(), contents.fate_of(number)) {
        push_link(html, number)
    } else {
        html.number(u64::from(number))
    }
}

/// Appends how many lines have an obstacle.
fn push_obstacle(
    html: &mut Html,
    alloc: Global,
    obstacle: Obstacle,
    count: usize,
) -> Result<(), NoMem>
    ensures { OnOk result (html.new
        ≡ html.old ++ Number count ∷ Text (obstacle_words obstacle count) ∷ []) }
{
    html.number(count as u64)?;
    html.words(" ")?;
    html.said(alloc, obstacle_words(obstacle, count))
}

/// Appends the numbers of lines.
fn push_numbers(html: &mut Html, contents: Contents<'_, '_>, numbers: &[u32]) -> Result<(), NoMem>
    ensures { OnOk result (html.new ≡ html.old
        ++ map (number_told (contents_view contents.entry)) numbers.now) }
{
    for number in numbers {
        push_number(html, contents, *number)?;
    }
    Ok(())
}

/// Appends the lines with an obstacle, unless there are none.
fn push_numbered(
    html: &mut Html,
    alloc: Global,
    contents: Contents<'_, '_>,
    obstacle: Obstacle,
    numbers: &[u32],
) -> Result<(), NoMem>
    ensures { OnOk result (html.new ≡ html.old ++ numbered_told
        (contents_view contents.entry) obstacle numbers.now) }
{
    if numbers.is_empty() {
        return Ok(());
    }
    html.fixed(Tag::UnknownRow)?;
    push_obstacle(html, alloc, obstacle, numbers.len())?;
    html.words(":")?;
    push_numbers(html, contents, numbers)?;
    html.fixed(Tag::UnknownRowEnd)
}

/// Appends the lines with an obstacle, unless there are none.
fn push_with(
    html: &mut Html,
    alloc: Global,
    contents: Contents<'_, '_>,
    obstacle: Obstacle,
) -> Result<(), NoMem>
    ensures { OnOk result (html.new ≡ html.old
        ++ with_told (contents_view contents.entry) obstacle) }
{
    let numbers = contents.summary.numbers_with(alloc, obstacle)?;
    push_numbered(html, alloc, contents, obstacle, numbers.as_slice())
}

/// Appends how many lines weren't understood or have to be run for real, as a link to the block
/// that names them, unless there are none.
pub(crate) fn push_unknown_link(
    html: &mut Html,
    source: Source<'_>,
    unknown: &[UnknownLine],
) -> Result<(), NoMem>
    ensures { OnOk result (html.new ≡ html.old ++ unknown_count unknown.now) }
{
    if unknown.is_empty() {
        return Ok(());
    }
    html.fixed(Tag::UnknownLink)?;
    push_count(html, source, unknown.len())?;
    html.words(".")?;
    html.fixed(Tag::LinkEnd)
}

/// Appends that every line was understood, or that none has to be run for real.
fn push_no_unknown(html: &mut Html, source: Source<'_>) -> Result<(), NoMem>
    ensures { OnOk result (html.new ≡ html.old) }
{
    html.fixed(Tag::Small)?;
    match source {
        Source::Played => html.words("Every line was understood.")?,
        Source::Seen(_) => html.words("No line has to be run for real.")?,
    }
    html.fixed(Tag::ParagraphEnd)
}

/// Appends how many of the lines that weren't understood are cancelled, and what isn't in the
/// answer.
fn push_missing(html: &mut Html, count: usize, cancelled: usize) -> Result<(), NoMem>
    ensures { OnOk result (html.new ≡ html.old ++ Number cancelled ∷ []) }
{
    html.words(", ")?;
    html.number(cancelled as u64)?;
    if count == 1 {
        html.words(" cancelled. What it did isn't in this answer.")
    } else {
        html.words(" of them cancelled. What they did isn't in this answer.")
    }
}

/// Appends what the lines that have to be run for real are until then.
fn push_until(html: &mut Html, count: usize) -> Result<(), NoMem>
    ensures { OnOk result (html.new ≡ html.old) }
{
    html.words(" before this answer is whole. Until then ")?;
    if count == 1 {
        html.words("it stands as it was observed.")
    } else {
        html.words("they stand as they were observed.")
    }
}

/// Appends what so many lines mean for the answer that weren't understood or have to be run for
/// real.
fn push_meaning(
    html: &mut Html,
    source: Source<'_>,
    summary: &Summary,
    count: usize,
) -> Result<(), NoMem>
    ensures { OnOk result (html.new
        ≡ html.old ++ missing_told (source_view source.entry) summary.now.lines) }
{
    match source {
        Source::Played => push_missing(html, count, summary.unknown_cancelled()),
        Source::Seen(_) => push_until(html, count),
    }
}

/// Appends the lines by their obstacles.
fn push_list(html: &mut Html, alloc: Global, contents: Contents<'_, '_>) -> Result<(), NoMem>
    ensures { OnOk result (html.new ≡ html.old
        ++ unknown_list (contents_view contents.entry)) }
{
    html.fixed(Tag::UnknownList)?;
    push_with(html, alloc, contents, Obstacle::Command)?;
    push_with(html, alloc, contents, Obstacle::Form)?;
    push_with(html, alloc, contents, Obstacle::Expansion)?;
    push_with(html, alloc, contents, Obstacle::Terminal)?;
    push_with(html, alloc, contents, Obstacle::Need)?;
    html.fixed(Tag::UnknownEnd)
}

/// Appends which lines weren't understood or have to be run for real, by their obstacles, or that
/// there are none. No line is left out.
pub(crate) fn push_unknown(
    html: &mut Html,
    alloc: Global,
    contents: Contents<'_, '_>,
) -> Result<(), NoMem>
    ensures { OnOk result (html.new ≡ html.old
        ++ unknown_told (contents_view contents.entry)) }
{
    let count = contents.summary.unknown.len();
    let source = contents.case.source();
    if contents.summary.unknown.is_empty() {
        return push_no_unknown(html, source);
    }
    html.sign(Tag::Unknown)?;
    push_count(html, source, count)?;
    push_meaning(html, source, contents.summary, count)?;
    push_list(html, alloc, contents)
}
