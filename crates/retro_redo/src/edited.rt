//! Repairs that run all edited lines again.
ghost use Rattle.std.specs.Prelude.{◌≡◌, ◌++◌, IfOk, OnOk, map};
ghost use Rattle.std.specs.FinMap as map_of;
ghost use Rattle.retro_keep.specs.Edit.{edited, line_run};
ghost use Rattle.retro_keep.specs.Recording.{IsRecordingOf, IsWellFormed, script_line};
ghost use Rattle.retro_redo.specs.Moments.{text_now};
ghost use Rattle.retro_redo.specs.Repair.{IsRunAgain, line_again, script_now};

use crate::repair::Repair;
use crate::tally::Tally;
use crate::verdict::{SettledLine, Verdict};
use retro_keep::{Edits, Noted, Recording, Script, ScriptLine, keep_alone};
use retro_tree::NoMem;
use std::alloc::Global;

/// Runs all edited lines again, and returns the repair whose verdict on each of them is `Redone`.
/// The executions aren't observed by a [`Gate`](crate::Gate).
///
/// This is the fallback of `Steps::finish`. It is needed only for a recording whose notes aren't
/// those of running its lines.
pub(crate) fn run_edited(
    alloc: Global,
    recording: &Recording,
    edits: &Edits<'_>,
    tally: Tally,
) -> Result<Repair, NoMem>
    ensures tally { IfOk result (λ repair. repair.tally ≡ tally) }
    ensures again { IfOk result (λ repair.
        IsRunAgain (map_of.get edits.now) recording.now repair) }
{
    let again = record_edited(alloc, recording, edits)?;
    Ok(Repair {
        lines: settled_again(alloc, recording.lines(), edits)?,
        tally,
        recording: again,
    })
}

/// Runs the edited lines, and returns their recording. It begins at the same number as `recording`.
fn record_edited(
    alloc: Global,
    recording: &Recording,
    edits: &Edits<'_>,
) -> Result<Recording, NoMem>
    ensures recording { IfOk result (λ again.
        IsRecordingOf (script_now (map_of.get edits.now) recording.now) again) }
    ensures begins { IfOk result (λ again. again.from ≡ recording.now.from) }
{
    let script = script_now(alloc, recording, edits)?;
    let kept = keep_alone(alloc, &script)?;
    let (first, _, lines, last) = kept.into_parts();
    let from = recording.from();
    Ok(Recording::of_well_formed(first, from, lines, last))
}

/// Returns the script of the edited lines.
fn script_now(alloc: Global, recording: &Recording, edits: &Edits<'_>) -> Result<Script, NoMem>
    ensures { IfOk result (λ script.
        script ≡ script_now (map_of.get edits.now) recording.now) }
{
    let lines = edited_lines(alloc, recording.lines(), edits)?;
    match Script::of_lawful(recording.first().copy()?, lines) {
        Ok(script) => Ok(script),
        Err(_) => unreachable!(),
    }
}

/// Returns the edited lines.
fn edited_lines(
    alloc: Global,
    lines: &[(u32, Noted)],
    edits: &Edits<'_>,
) -> Result<Vec<ScriptLine>, NoMem>
    ensures { IfOk result (λ found.
        found.items ≡ edited (map_of.get edits.now) (map script_line lines.now)) }
{
    let mut found = Vec::new(alloc);
    for line in lines {
        push_edited(&mut found, line, edits)?;
    }
    Ok(found)
}

/// Appends a line as it is edited, unless it is cancelled.
fn push_edited(
    found: &mut Vec<ScriptLine>,
    line: &(u32, Noted),
    edits: &Edits<'_>,
) -> Result<(), NoMem>
    ensures { OnOk result (found.new.items ≡ found.old.items
        ++ line_run (script_line line.now) (text_now (map_of.get edits.now) line.now)) }
{
    if let Some(text) = edits.text_run(line.0, &line.1.text) {
        found.push(ScriptLine {
            number: line.0,
            sid: line.1.sid,
            text: text.copy()?,
        })?;
    }
    Ok(())
}

/// Returns what is left of lines, all of which are run again but for the cancelled ones.
fn settled_again(
    alloc: Global,
    lines: &[(u32, Noted)],
    edits: &Edits<'_>,
) -> Result<Vec<SettledLine>, NoMem>
    ensures { IfOk result (λ settled.
        settled.items ≡ map (line_again (map_of.get edits.now)) lines.now) }
{
    let mut settled = Vec::new(alloc);
    for line in lines {
        settled.push(line_again(line, edits))?;
    }
    Ok(settled)
}

/// Returns what is left of a line that is met and run again, unless it is cancelled.
fn line_again(line: &(u32, Noted), edits: &Edits<'_>) -> SettledLine
    ensures { result ≡ line_again (map_of.get edits.now) line.now }
{
    let number = line.0;
    match edits.text_run(number, &line.1.text) {
        None => SettledLine {
            number,
            verdict: Verdict::Cancelled,
            is_met: false,
        },
        Some(_) => SettledLine {
            number,
            verdict: Verdict::Redone,
            is_met: true,
        },
    }
}
