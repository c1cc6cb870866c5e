//! Repairs on one thread.
ghost use Rattle.std.specs.Prelude.{◌≡◌, IfErr, IfOk, None, OnOk, ℕ};
ghost use Rattle.retro_keep.specs.Edit.{edit_of};
ghost use Rattle.retro_keep.specs.Recording.{IsRecordingOf, script_in};
ghost use Rattle.retro_redo.specs.Editing.{AreAccepted, Refuses};
ghost use Rattle.retro_redo.specs.Progress.{AreTakenNow, edit_in, next_line};
ghost use Rattle.retro_redo.specs.Repair.{IsRepair, no_guesses};
ghost use Rattle.retro_redo.specs.Settled.{AreSettled};

use crate::gate::{Gate, Quiet};
use crate::repair::Repair;
use crate::repair_fault::RepairFault;
use crate::repairer::Repairer;
use crate::steps::Steps;
use crate::tally::Tally;
use retro_history::History;
use retro_keep::{Edit, Recording};
use std::alloc::Global;

/// Repairs a recording on one thread: returns what it would be if its lines were edited so. An edit
/// may be in the list twice. Only lines whose text is replaced or whose notes no longer hold are
/// run again.
///
/// If the recording is what running its lines gives, the repair's state and outputs are those of
/// running the edited lines. A recording from elsewhere needn't be that. Then the repair settles
/// each line by a step that the line allows, as [`Repairer::step`] says, and returns what these
/// steps make of the recorded notes. Only met lines are run again, so a line that is neither edited
/// nor met stands with its noted output. If the resulting changes aren't lawful, it runs all edited
/// lines again instead.
///
/// # Errors
///
/// `TwoEdits` with the least number that two different edits name. Otherwise `BeforeCheckpoint`
/// with the least edited number, from 1 on, that is below the number at which the recording begins.
/// Otherwise `NoSuchLine` with the least edited number that no line has.
pub fn repair_alone(
    alloc: Global,
    recording: &Recording,
    edits: &[Edit],
) -> Result<Repair, RepairFault>
    ensures repair { IfOk result (λ repair. IsRecordingOf (script_in recording.now) recording.now
        → IsRepair (edit_of edits.now) recording.now repair) }
    ensures settled { IfOk result (λ repair.
        AreSettled (edit_of edits.now) recording.now repair) }
    ensures tally { IfOk result (λ repair. repair.tally ≡ no_guesses) }
    ensures known { OnOk result (AreAccepted edits.now recording.now) }
    ensures refused { IfErr result (λ fault. Refuses edits.now recording.now fault) }
{
    repair_watched(alloc, recording, edits, &Quiet)
}

/// Repairs a recording on one thread, as [`repair_alone`] does. Calls an observer before and after
/// each execution of a stale line. If all edited lines are run again at the end, their executions
/// aren't observed.
pub fn repair_watched<G: Gate>(
    alloc: Global,
    recording: &Recording,
    edits: &[Edit],
    gate: &G,
) -> Result<Repair, RepairFault>
    ensures repair { IfOk result (λ repair. IsRecordingOf (script_in recording.now) recording.now
        → IsRepair (edit_of edits.now) recording.now repair) }
    ensures settled { IfOk result (λ repair.
        AreSettled (edit_of edits.now) recording.now repair) }
    ensures tally { IfOk result (λ repair. repair.tally ≡ no_guesses) }
    ensures known { OnOk result (AreAccepted edits.now recording.now) }
    ensures refused { IfErr result (λ fault. Refuses edits.now recording.now fault) }
{
    let settled = settle_all(alloc, recording, edits, gate)?;
    let repair = settled.finish(alloc, Tally::none())?;
    Ok(repair)
}

/// Settles all lines of a recording on one thread. The history is dropped before the repaired
/// recording is made, so the two don't take memory at the same time.
fn settle_all<'a, 'e, G: Gate>(
    alloc: Global,
    recording: &'a Recording,
    edits: &'e [Edit],
    gate: &G,
) -> Result<Steps<'a, 'e>, RepairFault>
    ensures recording { IfOk result (λ settled. settled.recording ≡ recording.now) }
    ensures edits { IfOk result (λ settled.
        (n : ℕ) → edit_in settled n ≡ edit_of edits.now n) }
    ensures settled { IfOk result (λ settled. next_line settled ≡ None) }
    ensures met { IfOk result (λ settled. AreTakenNow settled) }
    ensures known { OnOk result (AreAccepted edits.now recording.now) }
    ensures refused { IfErr result (λ fault. Refuses edits.now recording.now fault) }
{
    recording.test_edits(edits)?;
    let history = History::of(alloc, recording)?;
    let mut repairer = Repairer::new(alloc, recording, &history, edits)?;
    while let Some(line) = repairer.skip_unmet()? {
        repairer.settle(alloc, line, None, gate)?;
    }
    Ok(repairer.into_steps())
}
