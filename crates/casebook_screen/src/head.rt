//! What a log holds and what it rests on.
ghost use Rattle.std.specs.Prelude.{◌≡◌, ◌++◌, [], IsTrue, OnOk, map};
ghost use Rattle.std.specs.List.{list_all};
ghost use Rattle.std.specs.Option.{option_copied};
ghost use Rattle.casebook_text.specs.SafeLine.{word_bytes};
ghost use Rattle.casebook_text.specs.SafeText.{is_printable};
ghost use Rattle.casebook_view.specs.Sources.{seen_view, source_view};
ghost use Rattle.casebook_screen.specs.Told.{basis_told, head_told, observed_told, period_told};
ghost use Rattle.casebook_screen.specs.Told.{seen_told, some_told, span_told, times_told};
ghost use Rattle.casebook_screen.specs.Told.{folders_told};
ghost use Rattle.casebook_screen.specs.declared.piece.Piece.TheVariants.{Text as Told};

use crate::NoMem;
use crate::screen::Screen;
use crate::shown::push_first_numbers;
use casebook_about::Labels;
use casebook_summary::{Summary, played_words, sessions_of};
use casebook_text::SafeLine;
use casebook_view::{CaseLine, Fate, Seen, Source};
use retro_tree::Text;
use std::alloc::Global;

/// Appends until when lines were typed, if that is known.
fn push_end(screen: &mut Screen, alloc: Global, end: SafeLine) -> Result<(), NoMem>
    ensures { OnOk result (screen.new ≡ screen.old ++ span_told [] end) }
{
    if end.as_str().is_empty() {
        return Ok(());
    }
    screen.said(alloc, ", until ")?;
    screen.text(end)
}

/// Appends from when to when lines were typed, as far as that is known.
fn push_span(
    screen: &mut Screen,
    alloc: Global,
    begin: SafeLine,
    end: SafeLine,
) -> Result<(), NoMem>
    ensures { OnOk result (screen.new ≡ screen.old ++ span_told begin end) }
{
    if begin.as_str().is_empty() {
        return push_end(screen, alloc, end);
    }
    if end.as_str().is_empty() {
        screen.said(alloc, ", from ")?;
        return screen.text(begin);
    }
    screen.words(", ")?;
    screen.text(begin)?;
    screen.words(" to ")?;
    screen.text(end)
}

/// Appends the times of two lines.
fn push_times(
    screen: &mut Screen,
    alloc: Global,
    labels: &Labels,
    first: Option<&CaseLine>,
    last: Option<&CaseLine>,
) -> Result<(), NoMem>
    ensures { OnOk result (screen.new ≡ screen.old
        ++ times_told labels.now (option_copied first.entry) (option_copied last.entry)) }
{
    if let (Some(first), Some(last)) = (first, last) {
        let begin = labels.time_of(alloc, first.number)?;
        let end = labels.time_of(alloc, last.number)?;
        return push_span(screen, alloc, begin, end);
    }
    Ok(())
}

/// Appends the times of the first and the last line.
fn push_period(
    screen: &mut Screen,
    alloc: Global,
    labels: &Labels,
    lines: &[CaseLine],
) -> Result<(), NoMem>
    ensures { OnOk result (screen.new ≡ screen.old ++ period_told labels.now lines.now) }
{
    push_times(screen, alloc, labels, lines.first(), lines.last())
}

/// Appends what the log holds, and how many lines are cancelled.
pub(crate) fn push_head(
    screen: &mut Screen,
    alloc: Global,
    labels: &Labels,
    summary: &Summary,
) -> Result<(), NoMem>
    ensures { OnOk result (screen.new
        ≡ screen.old ++ head_told labels.now summary.now.lines) }
{
    let lines = summary.lines.as_slice();
    screen.count(lines.len(), "line")?;
    screen.words(" of ")?;
    screen.count(sessions_of(alloc, lines)?.len(), "session")?;
    push_period(screen, alloc, labels, lines)?;
    screen.words(". ")?;
    screen.number(summary.count(Fate::Cancelled) as u64)?;
    screen.words(" cancelled.")?;
    screen.end()
}

/// Appends how many lines stand as they were observed.
fn push_observed(screen: &mut Screen, alloc: Global, count: usize) -> Result<(), NoMem>
    ensures { OnOk result (screen.new ≡ screen.old ++ observed_told count) }
{
    screen.words("Recorded on the machine. ")?;
    if count == 0 {
        screen.said(alloc, "Each line did what Retro's shell does.")?;
        return screen.end();
    }
    screen.count(count, "line")?;
    if count == 1 {
        screen.words(" stands as it was observed.")?;
    } else {
        screen.words(" stand as they were observed.")?;
    }
    screen.end()
}

/// Appends a line with what some numbers are, and the first of them, if there are any.
pub(crate) fn push_some(
    screen: &mut Screen,
    alloc: Global,
    words: &str,
    numbers: &[u32],
) -> Result<(), NoMem>
    requires { IsTrue (list_all is_printable words.now) }
    ensures { OnOk result (screen.new ≡ screen.old ++ some_told words.now numbers.now) }
{
    if numbers.is_empty() {
        return Ok(());
    }
    screen.said(alloc, words)?;
    push_first_numbers(screen, alloc, numbers)?;
    screen.end()
}

/// Appends folders, each after a space.
fn push_folders(screen: &mut Screen, alloc: Global, folders: &[Text]) -> Result<(), NoMem>
    ensures { OnOk result (screen.new
        ≡ screen.old ++ map (λ folder. Told (word_bytes folder)) folders.now) }
{
    for folder in folders {
        let mut word = SafeLine::new(alloc);
        word.push_word(alloc, folder.as_str().as_bytes())?;
        screen.words(" ")?;
        screen.text(word)?;
    }
    Ok(())
}

/// Appends a line with what some folders are, and the folders, if there are any.
fn push_some_folders(
    screen: &mut Screen,
    alloc: Global,
    words: &str,
    folders: &[Text],
) -> Result<(), NoMem>
    requires { IsTrue (list_all is_printable words.now) }
    ensures { OnOk result (screen.new ≡ screen.old ++ folders_told words.now folders.now) }
{
    if folders.is_empty() {
        return Ok(());
    }
    screen.said(alloc, words)?;
    push_folders(screen, alloc, folders)?;
    screen.end()
}

/// Appends what a recorder says of its lines.
fn push_seen(screen: &mut Screen, alloc: Global, seen: Seen<'_>) -> Result<(), NoMem>
    ensures { OnOk result (screen.new ≡ screen.old ++ seen_told (seen_view seen.entry)) }
{
    push_observed(screen, alloc, seen.observed.len())?;
    push_some(
        screen,
        alloc,
        "Not told apart, since they overlap: lines",
        seen.overlapping,
    )?;
    push_some(
        screen,
        alloc,
        "Changes outside of the recorded sessions: lines",
        seen.outside,
    )?;
    push_some(
        screen,
        alloc,
        "Lines without a record: sessions",
        seen.incomplete,
    )?;
    push_some_folders(
        screen,
        alloc,
        "What lines only read wasn't always seen in",
        seen.unseen,
    )
}

/// Appends what the log rests on.
pub(crate) fn push_basis(
    screen: &mut Screen,
    alloc: Global,
    source: Source<'_>,
    is_recording: bool,
) -> Result<(), NoMem>
    ensures { OnOk result (screen.new
        ≡ screen.old ++ basis_told (source_view source.entry) is_recording) }
{
    match source {
        Source::Played => {
            screen.said(alloc, played_words(is_recording))?;
            screen.end()
        }
        Source::Seen(seen) => push_seen(screen, alloc, seen),
    }
}
