//! The steps of a repair.
ghost use Rattle.std.specs.Prelude.{◌≡◌, ℕ, suc, OnErr, OnOk, Some, drop};
ghost use Rattle.std.specs.List.{slice_get};
ghost use Rattle.retro_tree.specs.Exact.{IsExact, IsTight};
ghost use Rattle.retro_tree.specs.Notes.{after};
ghost use Rattle.retro_tree.specs.declared.state.State.{State};
ghost use Rattle.retro_keep.specs.Recorded.{recorded_before};
ghost use Rattle.retro_keep.specs.Recording.{IsWellFormed};
ghost use Rattle.retro_difference.specs.Difference.{IsAmong, Stays};
ghost use Rattle.retro_redo.specs.Progress.{IsRunTaken, chosen, verdict_of};

use crate::line::Line;
use crate::verdict::Verdict;
use retro_difference::{Difference, LineRun};
use retro_history::History;
use retro_shell::Run;
use retro_tree::{NoMem, Notes};
use std::alloc::Global;

/// How a repair settles a line.
#[derive(Drop)]
pub enum Step {
    /// The line is left out.
    Cancel,
    /// The line is kept as recorded.
    Keep,
    /// The line gets this new run.
    Take(Run),
}

impl Step {
    /// Returns the verdict on a line that is settled by this step.
    pub(crate) fn verdict(&self) -> Verdict
        ensures { result ≡ verdict_of self.now }
    {
        match self {
            Step::Cancel => Verdict::Cancelled,
            Step::Keep => Verdict::Kept,
            Step::Take(_) => Verdict::Redone,
        }
    }

    /// Tells the prover that the step's run has what its type guarantees: its notes certify its
    /// line. The function changes nothing. The contract of `Run::sid` states the guarantee, so the
    /// call is enough.
    pub(crate) fn check_run(&self)
        ensures { IsRunTaken self.now }
    {
        if let Step::Take(run) = self {
            let _ = run.sid();
        }
    }
}

/// Goes over a line that is settled by `step`, in the recording that the history is of.
pub(crate) fn go_over(
    alloc: Global,
    difference: &mut Difference,
    history: &History<'_>,
    line: Line<'_, '_>,
    step: &Step,
) -> Result<(), NoMem>
    requires { IsTight difference.old.overlay (recorded_before line.number history.now) }
    ensures exact { OnOk result ((t : State)
        → IsExact difference.old.overlay (recorded_before line.entry.number history.now) t
        → IsExact difference.new.overlay
        (after line.entry.noted.now.notes (recorded_before line.entry.number history.now))
        (after (chosen step.now line.entry.noted.now) t)) }
    ensures uses { OnOk result ((k : ℕ) (t : State) → IsWellFormed history.now
        → slice_get history.now.lines k ≡ Some (line.entry.number, line.entry.noted.now)
        → IsExact difference.old.overlay (recorded_before line.entry.number history.now) t
        → IsAmong (drop k history.now.lines) difference.old
        → IsAmong (drop (suc k) history.now.lines) difference.new) }
    ensures err { OnErr result
        (Stays history.now line.entry.number difference.old difference.new) }
{
    let number = line.number;
    let recorded = &line.noted.notes;
    match step {
        Step::Keep => difference.advance(
            alloc,
            history,
            LineRun {
                number,
                recorded,
                chosen: None,
            },
        ),
        Step::Cancel => {
            let none = Notes::new(alloc)?;
            difference.advance(
                alloc,
                history,
                LineRun {
                    number,
                    recorded,
                    chosen: Some(&none),
                },
            )
        }
        Step::Take(run) => difference.advance(
            alloc,
            history,
            LineRun {
                number,
                recorded,
                chosen: Some(run.notes()),
            },
        ),
    }
}
