//! The parts of a repair that follow from the steps of all lines.
ghost use Rattle.std.specs.Prelude.{◌≡◌, ◌↔◌, ◌++◌, IfOk, IfSome, IsTrue, OnOk, Option};
ghost use Rattle.std.specs.Prelude.{is_some, length, ℕ};
ghost use Rattle.retro_tree.specs.Commit.{committed};
ghost use Rattle.retro_keep.specs.Recording.{IsWellFormed, last_state};
ghost use Rattle.retro_keep.specs.declared.edit.Edit.{Edit};
ghost use Rattle.retro_redo.specs.Progress.{Settles, line_chosen, lines_chosen};
ghost use Rattle.retro_redo.specs.Progress.{repaired_after};
ghost use Rattle.retro_redo.specs.Settled.{recording_chosen};

use crate::altered_paths::keeps_near;
use crate::step::Step;
use retro_keep::{Noted, Recording};
use retro_tree::{NoMem, Overlay};
use std::alloc::Global;

/// Returns the repaired recording: the first state with the lines as chosen. It begins at the same
/// number as `recording`. Returns `None` if these aren't a recording because a change isn't lawful
/// where it is made.
///
/// If no kept line changes a path near an altered one, the changes are known to be lawful. Then
/// nothing is tested, and the last state is the recorded last state with the overlay committed to
/// it. Otherwise each change of each line is tested.
pub(crate) fn chosen_recording(
    alloc: Global,
    recording: &Recording,
    choices: Vec<Step>,
    overlay: Overlay,
) -> Result<Option<Recording>, NoMem>
    requires settles { (edit : ℕ → Option Edit) × Settles edit recording.now.lines choices.items
        recording.now.first recording.now.first }
    requires all { length choices.items ≡ length recording.now.lines }
    requires last { committed overlay (last_state recording.now.lines recording.now.first)
        ≡ repaired_after recording.now.lines choices.items recording.now.first }
    ensures value { IfOk result (λ found. IfSome found (λ r.
        r ≡ recording_chosen recording.now choices.items)) }
    ensures exact { IfOk result (λ found. IsTrue (is_some found)
        ↔ IsWellFormed (recording_chosen recording.now choices.items)) }
{
    let lines = recording.lines();
    let near = keeps_near(alloc, lines, choices.as_slice())?;
    let chosen = chosen_lines(alloc, lines, choices)?;
    let first = recording.first().copy()?;
    let from = recording.from();
    if near {
        return Recording::new(alloc, first, from, chosen);
    }
    let mut last = recording.last().copy()?;
    overlay.commit(alloc, &mut last)?;
    Ok(Some(Recording::of_well_formed(first, from, chosen, last)))
}

/// Returns the lines of the repaired recording. Moves the runs of the redone lines.
fn chosen_lines(
    alloc: Global,
    lines: &[(u32, Noted)],
    choices: Vec<Step>,
) -> Result<Vec<(u32, Noted)>, NoMem>
    ensures { IfOk result (λ chosen. chosen.items ≡ lines_chosen lines.now choices.items) }
{
    let mut chosen = Vec::new(alloc);
    for (line, step) in lines.iter().zip(choices) {
        push_line(&mut chosen, line, step)?;
    }
    Ok(chosen)
}

/// Appends a line as `step` makes it. Appends nothing if the line is cancelled.
fn push_line(chosen: &mut Vec<(u32, Noted)>, line: &(u32, Noted), step: Step) -> Result<(), NoMem>
    ensures { OnOk result (chosen.new.items ≡ chosen.old.items ++ line_chosen line.now step) }
{
    match step {
        Step::Cancel => {}
        Step::Keep => chosen.push((line.0, line.1.copy()?))?,
        Step::Take(run) => chosen.push((line.0, Noted::of(run)))?,
    }
    Ok(())
}
