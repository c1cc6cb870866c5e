//! Repairs in rounds.
ghost use Rattle.std.specs.Prelude.{◌≡◌, true, IfErr, IfOk, None, OnOk, ℕ};
ghost use Rattle.retro_keep.specs.Edit.{edit_of};
ghost use Rattle.retro_keep.specs.Recording.{IsRecordingOf, script_in};
ghost use Rattle.retro_redo.specs.Editing.{AreAccepted, Refuses};
ghost use Rattle.retro_redo.specs.Progress.{AreTakenNow, edit_in, next_line};
ghost use Rattle.retro_redo.specs.Repair.{IsRepair};
ghost use Rattle.retro_redo.specs.Settled.{AreSettled};
ghost use Rattle.retro_rounds.specs.Refusals.{IsAccepted, IsRefusal, are_cuts};
ghost use Rattle.retro_rounds.specs.Tally.{IsTally};
ghost use Rattle.retro_rounds.specs.inner.Rounds.{IsTallied};

use crate::crew::Crew;
use crate::rounds::Rounds;
use crate::rounds_request::RoundsRequest;
use retro_history::History;
use retro_keep::{Edit, Recording};
use retro_redo::{Gate, Repair, RepairFault, Repairer, Steps, Tally};
use std::alloc::Global;
use std::thread::Threads;

/// Repairs a recording in rounds: returns what it would be if its lines were edited so. An edit may
/// be in the list twice. Only lines whose text is replaced or whose notes no longer hold are run
/// again, and those that a round takes for such.
///
/// `cuts` are the numbers of lines of the pieces; the last one is that of all further pieces.
/// `workers` is the greatest number of threads that run jobs beside this one. Neither changes the
/// answer, and only `cuts` changes the jobs. The observer is called before and after each execution
/// of a line, by the thread that runs it. If all edited lines are run again at the end, their
/// executions aren't observed.
///
/// For a recording that isn't what running its lines gives, the answer is as
/// [`repair_alone`](retro_redo::repair_alone) says.
///
/// # Errors
///
/// The first of these that applies: `TooManyWorkers` over [`MAX_WORKERS`](crate::MAX_WORKERS),
/// `NoCut` if `cuts` is empty or has a zero, `TwoEdits` with the least number that two different
/// edits name, `BeforeCheckpoint` with the least edited number, from 1 on, that is below the number
/// at which the recording begins, `NoSuchLine` with the least edited number that no line has, and
/// `OutOfMemory`. A guess that found no memory is no error: its line is run at its turn.
pub fn repair<R: Threads + Sync, G: Gate + Sync>(
    rt: &R,
    alloc: Global,
    recording: &Recording,
    edits: &[Edit],
    workers: usize,
    cuts: &[u32],
    gate: &G,
) -> Result<Repair, RepairFault>
    ensures repair { IfOk result (λ repair. IsRecordingOf (script_in recording.now) recording.now
        → IsRepair (edit_of edits.now) recording.now repair) }
    ensures settled { IfOk result (λ repair.
        AreSettled (edit_of edits.now) recording.now repair) }
    ensures tally { IfOk result (λ repair.
        IsTally (edit_of edits.now) cuts.now recording.now repair.tally) }
    ensures accepted { OnOk result (IsAccepted workers cuts.now edits.now recording.now) }
    ensures refused { IfErr result (λ fault.
        IsRefusal workers cuts.now edits.now recording.now fault) }
{
    let request = RoundsRequest {
        recording,
        edits,
        cuts,
        workers,
    };
    request.check()?;
    // For the prover: the contract of `lines` says that the recording is well formed.
    let _ = recording.lines();
    let (settled, tally) = settle_all(rt, alloc, &request, gate)?;
    let repair = settled.finish(alloc, tally)?;
    Ok(repair)
}

/// Settles all lines of a recording in rounds, and counts what became of the guesses. The history
/// is dropped before the repaired recording is made, so the two don't take memory at the same time.
fn settle_all<'a, R: Threads + Sync, G: Gate + Sync>(
    rt: &R,
    alloc: Global,
    request: &RoundsRequest<'a>,
    gate: &G,
) -> Result<(Steps<'a, 'a>, Tally), RepairFault>
    requires cuts { are_cuts request.now.cuts.now ≡ true }
    requires accepted { AreAccepted request.now.edits.now request.now.recording.now }
    ensures recording { IfOk result (λ settled.
        settled.0.recording ≡ request.now.recording.now) }
    ensures edits { IfOk result (λ settled. (n : ℕ) → edit_in settled.0 n
        ≡ edit_of request.now.edits.now n) }
    ensures settled { IfOk result (λ settled. next_line settled.0 ≡ None) }
    ensures met { IfOk result (λ settled. AreTakenNow settled.0) }
    ensures tally { IfOk result (λ settled.
        IsTallied request.now.cuts.now settled.0 settled.1) }
    ensures refused { IfErr result (λ fault.
        Refuses request.now.edits.now request.now.recording.now fault) }
{
    // For the prover: the contract of `lines` says that the recording is well formed.
    let _ = request.recording.lines();
    let history = History::of(alloc, request.recording)?;
    let mut repairer = Repairer::new(alloc, request.recording, &history, request.edits)?;
    let mut rounds = Rounds::new(alloc, request.cuts);
    let crew = Crew {
        rt,
        size: request.workers,
    };
    while let Some(line) = repairer.skip_unmet()? {
        rounds.pass_to(line.number);
        rounds.advance(&crew, alloc, &repairer, gate)?;
        rounds.settle(alloc, &mut repairer, line, gate)?;
    }
    Ok((repairer.into_steps(), rounds.finish()))
}
