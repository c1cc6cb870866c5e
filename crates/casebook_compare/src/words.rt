//! Comparisons in words.
ghost use Rattle.std.specs.Prelude.{◌≡◌, ◌++◌, IfOk, OnOk, map};
ghost use Rattle.casebook_compare.specs.Words.{comparison_lines, difference_line, end_line};
ghost use Rattle.casebook_compare.specs.Words.{head_line, last_of, last_words, line_of_change};
ghost use Rattle.casebook_compare.specs.Words.{unread_line, writers_words};

use crate::NoMem;
use crate::comparison::Comparison;
use crate::unread::UnreadPath;
use casebook_changes::ChangedPath;
use casebook_snapshot_json::reason_text;
use casebook_text::{SafeLine, list_of_numbers};
use casebook_words::{push_answer, push_difference, push_path};
use retro_history::History;
use retro_keep::Recording;
use retro_tree::{Answer, Cell, Path, Tree};
use std::alloc::Global;

/// Of how many of the last lines that wrote to a path the numbers are given.
const LAST_LINES: usize = 3;

/// Returns the last three of some numbers.
fn last_of(numbers: &[u32]) -> &[u32]
    ensures { result.now ≡ last_of numbers.now }
{
    &numbers[numbers.len().saturating_sub(LAST_LINES)..]
}

/// Appends the last three of some numbers.
#[tactic(auto, unfolding(crate::specs::Words::last_words))]
fn push_last(alloc: Global, line: &mut SafeLine, numbers: &[u32]) -> Result<(), NoMem>
    ensures { OnOk result (line.new ≡ line.old ++ last_words numbers.now) }
{
    let list = list_of_numbers(alloc, last_of(numbers))?;
    line.push_ascii("; last written by ")?;
    line.push_line(&list)
}

/// Appends which lines wrote to a path.
fn push_writers(alloc: Global, line: &mut SafeLine, numbers: &[u32]) -> Result<(), NoMem>
    ensures { OnOk result (line.new ≡ line.old ++ writers_words numbers.now) }
{
    match numbers {
        [] => line.push_ascii("; no line wrote to it"),
        [_, ..] => push_last(alloc, line, numbers),
    }
}

/// Returns how a path of a folder differs from what is recorded, and the last lines that wrote to
/// it.
#[tactic(auto, unfolding(crate::specs::Words::difference_line))]
fn difference_line(
    alloc: Global,
    history: &History<'_>,
    folder: &Tree,
    path: &Path,
) -> Result<SafeLine, NoMem>
    ensures { IfOk result (λ line.
        line ≡ difference_line history.now folder.now path.now) }
{
    let recorded = Answer::Bytes(history.recording().last().tree().node(path)?);
    let found = Answer::Bytes(folder.node(path)?);
    let mut line = SafeLine::new(alloc);
    push_path(alloc, &mut line, path)?;
    push_difference(alloc, &mut line, &recorded, &found)?;
    push_writers(
        alloc,
        &mut line,
        history.written_by(&Cell::At(path.copy()?)),
    )?;
    Ok(line)
}

/// Returns what is recorded at a path that was skipped, why it was, and the last lines that wrote
/// to it.
#[tactic(auto, unfolding(crate::specs::Words::unread_line))]
fn unread_line(alloc: Global, history: &History<'_>, unread: &UnreadPath) -> Result<SafeLine, NoMem>
    ensures { IfOk result (λ line. line ≡ unread_line history.now unread.now) }
{
    let path = &unread.path;
    let recorded = Answer::Bytes(history.recording().last().tree().node(path)?);
    let mut line = SafeLine::new(alloc);
    push_path(alloc, &mut line, path)?;
    line.push_ascii(": ")?;
    push_answer(alloc, &mut line, &recorded)?;
    line.push_ascii(" / skipped, ")?;
    line.push_ascii(reason_text(unread.reason))?;
    push_writers(
        alloc,
        &mut line,
        history.written_by(&Cell::At(path.copy()?)),
    )?;
    Ok(line)
}

/// Returns how many paths are as recorded, how many aren't, and how many recorded ones were
/// skipped.
#[tactic(auto, unfolding(crate::specs::Words::head_line))]
fn head_line(alloc: Global, same: usize, different: usize, unread: usize) -> Result<SafeLine, NoMem>
    ensures { IfOk result (λ line. line ≡ head_line same different unread) }
{
    let mut line = SafeLine::new(alloc);
    line.push_ascii("as recorded ")?;
    line.push_number(alloc, same as u64)?;
    line.push_ascii(", not as recorded ")?;
    line.push_number(alloc, different as u64)?;
    line.push_ascii(", skipped ")?;
    line.push_number(alloc, unread as u64)?;
    Ok(line)
}

/// Returns what is said after all paths.
fn end_line(alloc: Global) -> Result<SafeLine, NoMem>
    ensures { IfOk result (λ line. line ≡ end_line) }
{
    let mut line = SafeLine::new(alloc);
    line.push_ascii(
        "Paths are shown as recorded / as in the folder. What was overwritten before the end isn't \
         compared.",
    )?;
    Ok(line)
}

/// Appends a line for each changed path.
fn push_differences(
    alloc: Global,
    lines: &mut Vec<SafeLine>,
    history: &History<'_>,
    folder: &Tree,
    changed: &[ChangedPath],
) -> Result<(), NoMem>
    ensures { OnOk result (lines.new.items ≡ lines.old.items
        ++ map (line_of_change history.now folder.now) changed.now) }
{
    for one in changed {
        lines.push(difference_line(alloc, history, folder, &one.path)?)?;
    }
    Ok(())
}

/// Appends a line for each recorded path that was skipped.
fn push_unread(
    alloc: Global,
    lines: &mut Vec<SafeLine>,
    history: &History<'_>,
    unread: &[UnreadPath],
) -> Result<(), NoMem>
    ensures { OnOk result (lines.new.items ≡ lines.old.items
        ++ map (unread_line history.now) unread.now) }
{
    for one in unread {
        lines.push(unread_line(alloc, history, one)?)?;
    }
    Ok(())
}

/// Returns a comparison of a recording with a folder in lines: how many paths are as recorded, each
/// path that isn't, and each recorded one that was skipped, with the last lines that wrote to it,
/// and what isn't compared.
#[tactic(auto, unfolding(crate::specs::Words::comparison_lines))]
pub fn comparison_lines(
    alloc: Global,
    recording: &Recording,
    comparison: &Comparison,
) -> Result<Vec<SafeLine>, NoMem>
    ensures { IfOk result (λ lines.
        lines.items ≡ comparison_lines recording.now comparison.now) }
{
    let history = History::of(alloc, recording)?;
    let changed = comparison.different.as_slice();
    let unread = comparison.unread.as_slice();
    let mut lines = Vec::new(alloc);
    lines.push(head_line(alloc, comparison.same, changed.len(), unread.len())?)?;
    push_differences(
        alloc,
        &mut lines,
        &history,
        comparison.folder.tree(),
        changed,
    )?;
    push_unread(alloc, &mut lines, &history, unread)?;
    lines.push(end_line(alloc)?)?;
    Ok(lines)
}
