//! What a repair does with lines.
ghost use Rattle.std.specs.Prelude.{Some};
ghost use Rattle.retro_keep.specs.Recording.{noted_at};
ghost use Rattle.casebook_view.specs.Fates.{IsFate, IsFateOfRuns, IsRedoneFate};

use crate::case::Case;
use casebook_cause::has_another_result;
use retro_keep::Noted;
use retro_redo::{SettledLine, Verdict};

/// What a repair does with a line.
#[derive(Clone, Copy, Debug, PartialEq, Eq)]
pub enum Fate {
    /// The line is cancelled.
    Cancelled,
    /// The line is run again, and prints something else or makes other changes.
    Changed,
    /// The line is run again, prints the same and makes the same changes.
    Alike,
    /// The line reads or writes a cell that differs, and is kept as recorded.
    Kept,
    /// The line reads and writes no cell that differs.
    Untouched,
}

/// Returns what becomes of a line, by both its runs.
fn fate_of_runs(old: &Noted, new: &Noted) -> Fate
    ensures { IsFateOfRuns old.now new.now result }
{
    if has_another_result(old, new) {
        Fate::Changed
    } else {
        Fate::Alike
    }
}

/// Returns what becomes of a line that is run again, by its recorded run.
fn fate_after(case: &Case<'_>, number: u32, old: &Noted) -> Fate
    ensures { IsRedoneFate (Some old.now)
        (noted_at number case.now.repair.recording.lines) result }
{
    match case.repaired(number) {
        Some(new) => fate_of_runs(old, new),
        None => Fate::Changed,
    }
}

/// Returns what becomes of a line that is run again.
fn fate_of_redone(case: &Case<'_>, number: u32) -> Fate
    ensures { IsRedoneFate (noted_at number case.now.recording.lines)
        (noted_at number case.now.repair.recording.lines) result }
{
    match case.recorded(number) {
        Some(old) => fate_after(case, number, old),
        None => Fate::Changed,
    }
}

/// Returns what becomes of a line, by what the repair did with it.
pub(crate) fn fate_of(case: &Case<'_>, line: &SettledLine) -> Fate
    ensures { IsFate case.now.recording case.now.repair line.now result }
{
    match line.verdict {
        Verdict::Cancelled => Fate::Cancelled,
        Verdict::Redone => fate_of_redone(case, line.number),
        Verdict::Kept => {
            if line.is_met {
                Fate::Kept
            } else {
                Fate::Untouched
            }
        }
    }
}
