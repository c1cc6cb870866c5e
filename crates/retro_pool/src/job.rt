//! Jobs: lines to run ahead of their turns.
ghost use Rattle.std.specs.Prelude.{◌≡◌, true, IfOk};
ghost use Rattle.retro_redo.specs.Editing.{is_line};
ghost use Rattle.retro_pool.specs.Guesses.{IsGuess, IsRunOf};

use crate::guess::Guess;
use retro_redo::{Gate, Ground, Turn};
use retro_shell::{Run, run_line};
use retro_tree::NoMem;
use std::alloc::Global;
use std::marker::Model;

/// A job: the line with a number is to be run ahead of its turn.
///
/// A job can't be copied or dropped. It is spent by [`Job::run`] or [`Job::give_back`].
pub struct Job {
    number: u32,
}

impl Model for Job {
    ghost use Rattle.std.specs.Prelude.{ℕ};

    ghost Value = { ℕ };

    ghost view = { λ job. job.number };
}

impl Job {
    /// Makes the job of the line with the given number.
    pub(crate) fn new(number: u32) -> Job
        ensures { result ≡ number }
    {
        Job { number }
    }

    /// Returns the number of the job's line.
    pub fn number(&self) -> u32
        ensures { result ≡ self.now }
    {
        self.number
    }

    /// Runs the job's line over the combined state before it: its new text if the ground's edits
    /// replace its text, and its own text if not. Calls the observer before and after the
    /// execution. The ground's recording must have the line.
    pub fn run<G: Gate>(
        self,
        alloc: Global,
        ground: &Ground<'_, '_, '_>,
        gate: &G,
    ) -> Result<Guess, NoMem>
        requires { is_line ground.now.recording self ≡ true }
        ensures number { IfOk result (λ guess. guess.number ≡ self) }
        ensures guess { IfOk result (λ guess. IsGuess ground.now guess) }
    {
        let number = self.give_back();
        let run = run_ahead(alloc, ground, number, gate)?;
        Ok(Guess { number, run })
    }

    /// Gives the job up, and returns the number of its line.
    pub fn give_back(self) -> u32
        ensures { result ≡ self }
    {
        let Job { number } = self;
        number
    }
}

/// Runs the line with the given number over the combined state before it, with its new text if it
/// has one. Calls the observer before and after the execution.
fn run_ahead<G: Gate>(
    alloc: Global,
    ground: &Ground<'_, '_, '_>,
    number: u32,
    gate: &G,
) -> Result<Run, NoMem>
    requires { is_line ground.now.recording number ≡ true }
    ensures { IfOk result (λ run. IsRunOf ground.now number run) }
{
    let noted = ground.recording().run_of(number).unwrap();
    let edited = ground.edits().text_run(number, &noted.text);
    let text = edited.unwrap_or(&noted.text);
    let shown = ground.view(number);
    gate.begin(number, Turn::Guess);
    let run = run_line(alloc, &shown, noted.sid, text.as_str());
    gate.end(number, Turn::Guess);
    let run = run?;
    // For the prover: the contract of `sid` says what the type guarantees.
    let _ = run.sid();
    Ok(run)
}
