//! How a repair settles the next line.
ghost use Rattle.std.specs.Prelude.{◌≡◌, ◌↔◌, ◌∷◌, ◌++◌, [], IfOk, IsTrue, None, OnErr, OnOk};
ghost use Rattle.std.specs.Prelude.{Some, ℕ};
ghost use Rattle.retro_tree.specs.Notes.{Holds};
ghost use Rattle.retro_shell.specs.Runs.{RunValue};
ghost use Rattle.retro_keep.specs.declared.noted.Noted.{Noted as NotedValue};
ghost use Rattle.retro_redo.specs.NextLine.{IsNextLine};
ghost use Rattle.retro_redo.specs.Progress.{IsNewRunOf, MayStep, edit_in, next_line, next_number};
ghost use Rattle.retro_redo.specs.Progress.{recorded_now, repaired_now};
ghost use Rattle.retro_redo.specs.Settling.{IsGuessOf, IsOneSettled, IsStale};
ghost use Rattle.retro_redo.specs.Moments.{IsMetBy};
ghost use Rattle.retro_redo.specs.declared.step.Step.TheVariants.{Take};

use super::Repairer;
use crate::gate::{Gate, Turn};
use crate::line::Line;
use crate::settlement::Settlement;
use crate::step::{Step, go_over};
use crate::verdict::SettledLine;
use retro_difference::{CombinedView, equiv};
use retro_shell::{Run, run_line};
use retro_tree::NoMem;
use std::alloc::Global;

impl<'h, 'a, 'e> Repairer<'h, 'a, 'e> {
    /// Settles the next line, `line`, and returns how. Cancels it if it is cancelled. Keeps it if
    /// it isn't edited, and it isn't met or its notes hold in the repaired state. Otherwise the
    /// line is met and stale: it gets its guess if the guess's notes hold in the repaired state,
    /// and is run again if not.
    ///
    /// A guess must be a run in the line's session of the line's new text, if its text is replaced,
    /// or of its own.
    pub fn settle<G: Gate>(
        &mut self,
        alloc: Global,
        line: Line<'a, 'e>,
        guess: Option<Run>,
        gate: &G,
    ) -> Result<Settlement, NoMem>
        requires next { IsNextLine self.old line }
        requires guess { (l : ℕ × NotedValue) → next_line self.old ≡ Some l
            → IsGuessOf (edit_in self.old) l guess }
        ensures { IfOk result (IsOneSettled self.old guess self.new) }
    {
        if line.is_cancelled() {
            self.take_step(alloc, line, Step::Cancel)?;
            return Ok(Settlement::Cancelled);
        }
        if !line.is_met {
            self.take_step(alloc, line, Step::Keep)?;
            return Ok(Settlement::Kept);
        }
        if self.is_as_noted(alloc, line)? {
            self.take_step(alloc, line, Step::Keep)?;
            return Ok(Settlement::Kept);
        }
        self.settle_stale(alloc, line, guess, gate)
    }

    /// Settles the next line, `line`, which is met and stale, and returns how: by its guess if the
    /// guess's notes hold in the repaired state, and by a new run if not.
    fn settle_stale<G: Gate>(
        &mut self,
        alloc: Global,
        line: Line<'a, 'e>,
        guess: Option<Run>,
        gate: &G,
    ) -> Result<Settlement, NoMem>
        requires next { IsNextLine self.old line }
        requires stale { (l : ℕ × NotedValue) → next_line self.old ≡ Some l → IsStale self.old l }
        requires met { (l : ℕ × NotedValue) → next_line self.old ≡ Some l
            → IsMetBy (edit_in self.old l.0) l.1.notes (recorded_now self.old)
            (repaired_now self.old) }
        requires guess { (l : ℕ × NotedValue) → next_line self.old ≡ Some l
            → IsGuessOf (edit_in self.old) l guess }
        ensures { IfOk result (IsOneSettled self.old guess self.new) }
    {
        if let Some(run) = guess {
            if self.fits(alloc, line.number, &run)? {
                self.take_step(alloc, line, Step::Take(run))?;
                return Ok(Settlement::TakenUp);
            }
            self.settle_again(alloc, line, gate)?;
            return Ok(Settlement::Redone);
        }
        self.settle_again(alloc, line, gate)?;
        Ok(Settlement::Redone)
    }

    /// Settles the next line, `line`, which is stale, by a run in the repaired state.
    fn settle_again<G: Gate>(
        &mut self,
        alloc: Global,
        line: Line<'a, 'e>,
        gate: &G,
    ) -> Result<(), NoMem>
        requires next { IsNextLine self.old line }
        requires stale { (l : ℕ × NotedValue) → next_line self.old ≡ Some l → IsStale self.old l }
        ensures { OnOk result ((run : RunValue) × (self.new
            ≡ record self.old { choices = self.old.choices ++ Take run ∷ [] })) }
    {
        let run = self.run_again(alloc, line, gate)?;
        self.take_step(alloc, line, Step::Take(run))?;
        Ok(())
    }

    /// Returns whether the next line isn't edited and its notes hold in the repaired state.
    pub fn equiv(&self, alloc: Global, number: u32) -> Result<bool, NoMem>
        requires { next_number self.now ≡ Some number }
        ensures { (l : ℕ × NotedValue) → next_line self.now ≡ Some l
            → IfOk result (λ b. IsTrue b
            ↔ ((edit_in self.now l.0 ≡ None) × Holds l.1.notes (repaired_now self.now))) }
    {
        self.is_as_noted(alloc, self.line_at(number))
    }

    /// Returns whether the next line, `line`, isn't edited and its notes hold in the repaired
    /// state.
    pub(crate) fn is_as_noted(&self, alloc: Global, line: Line<'a, 'e>) -> Result<bool, NoMem>
        requires { IsNextLine self.now line }
        ensures { (l : ℕ × NotedValue) → next_line self.now ≡ Some l
            → IfOk result (λ b. IsTrue b
            ↔ ((edit_in self.now l.0 ≡ None) × Holds l.1.notes (repaired_now self.now))) }
    {
        if line.edit.is_some() {
            return Ok(false);
        }
        let recorded = self.recorded(line.number);
        let overlay = self.difference.overlay();
        equiv(alloc, &line.noted.notes, &recorded, overlay)
    }

    /// Returns whether the notes of a run hold in the repaired state before the next line, whose
    /// number is `number`.
    pub fn fits(&self, alloc: Global, number: u32, run: &Run) -> Result<bool, NoMem>
        requires { next_number self.now ≡ Some number }
        ensures { IfOk result (λ b. IsTrue b ↔ Holds run.now.notes (repaired_now self.now)) }
    {
        let overlay = self.difference.overlay();
        equiv(alloc, run.notes(), &self.recorded(number), overlay)
    }

    /// Runs the next line again, in the repaired state: its new text if its text is replaced, and
    /// its own text if not. Calls the observer before and after the execution.
    pub fn redo<G: Gate>(&self, alloc: Global, number: u32, gate: &G) -> Result<Run, NoMem>
        requires { next_number self.now ≡ Some number }
        ensures new_run { (l : ℕ × NotedValue) → next_line self.now ≡ Some l
            → IfOk result (λ run. IsNewRunOf (edit_in self.now) l run) }
        ensures holds { IfOk result (λ run. Holds run.notes (repaired_now self.now)) }
    {
        self.run_again(alloc, self.line_at(number), gate)
    }

    /// Runs the next line, `line`, again, as [`Repairer::redo`] does.
    pub(crate) fn run_again<G: Gate>(
        &self,
        alloc: Global,
        line: Line<'a, 'e>,
        gate: &G,
    ) -> Result<Run, NoMem>
        requires { IsNextLine self.now line }
        ensures new_run { (l : ℕ × NotedValue) → next_line self.now ≡ Some l
            → IfOk result (λ run. IsNewRunOf (edit_in self.now) l run) }
        ensures holds { IfOk result (λ run. Holds run.notes (repaired_now self.now)) }
    {
        let text = line.text();
        let repaired = CombinedView::new(self.recorded(line.number), self.difference.overlay());
        gate.begin(line.number, Turn::Place);
        let run = run_line(alloc, &repaired, line.noted.sid, text.as_str());
        gate.end(line.number, Turn::Place);
        run
    }

    /// Settles the next line by `step`.
    ///
    /// The step must be one that the line allows. A cancelled line allows `Cancel` alone. A line
    /// that isn't edited allows `Keep` if it isn't met or if its notes hold in the repaired state.
    /// A line whose notes don't hold there allows `Take` of a run of its text in its session, whose
    /// notes hold there. A line whose text is replaced allows `Take` of such a run of its new text,
    /// and nothing else.
    pub fn step(&mut self, alloc: Global, number: u32, step: Step) -> Result<(), NoMem>
        requires next { next_number self.old ≡ Some number }
        requires may { (l : ℕ × NotedValue) → next_line self.old ≡ Some l
            → MayStep (edit_in self.old) (recorded_now self.old) (repaired_now self.old) l step }
        ensures ok { OnOk result
            (self.new ≡ record self.old { choices = self.old.choices ++ step ∷ [] }) }
        ensures err { OnErr result (self.new ≡ self.old) }
    {
        self.take_step(alloc, self.line_at(number), step)
    }

    /// Settles the next line, `line`, by `step`, as [`Repairer::step`] does.
    pub(crate) fn take_step(
        &mut self,
        alloc: Global,
        line: Line<'a, 'e>,
        step: Step,
    ) -> Result<(), NoMem>
        requires next { IsNextLine self.old line }
        requires may { (l : ℕ × NotedValue) → next_line self.old ≡ Some l
            → MayStep (edit_in self.old) (recorded_now self.old) (repaired_now self.old) l step }
        ensures ok { OnOk result
            (self.new ≡ record self.old { choices = self.old.choices ++ step ∷ [] }) }
        ensures err { OnErr result (self.new ≡ self.old) }
    {
        step.check_run();
        // For the prover: the contract of `noted_line` says that the recording is well formed.
        let _ = self.noted_line();
        self.choices.reserve(1)?;
        self.lines.reserve(1)?;
        go_over(alloc, &mut self.difference, self.history, line, &step)?;
        self.lines.push_reserved(SettledLine::of(&line, &step));
        self.choices.push_reserved(step);
        Ok(())
    }
}
