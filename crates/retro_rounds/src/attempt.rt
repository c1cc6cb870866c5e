//! Runs of lines ahead of their turns.
ghost use Rattle.std.specs.Prelude.{◌≡◌, ℕ, All, IfOk, None, Option};
ghost use Rattle.retro_keep.specs.Recording.{RecordingValue};
ghost use Rattle.retro_keep.specs.declared.edit.Edit.{Edit};
ghost use Rattle.retro_rounds.specs.inner.Attempts.{IsAttempt, IsGuessIn, numbers_of};

use retro_pool::{Guess, Job};
use retro_shell::Run;
use retro_tree::NoMem;
use std::alloc::Global;

/// What came of running a line ahead of its turn.
#[derive(Drop)]
pub(crate) struct Attempt {
    /// The number of the line.
    pub(crate) number: u32,
    /// The guess, or `None` if there is none.
    pub(crate) run: Option<Run>,
}

/// Returns an attempt without a guess for each of the jobs, in order.
pub(crate) fn attempts_at(alloc: Global, jobs: &[Job]) -> Result<Vec<Attempt>, NoMem>
    ensures numbers { IfOk result (λ attempts. numbers_of attempts.items ≡ jobs.now) }
    ensures none { IfOk result (λ attempts. All (λ a. a.run ≡ None) attempts.items) }
{
    let mut attempts = Vec::with_capacity(alloc, jobs.len())?;
    for job in jobs {
        attempts.push(Attempt {
            number: job.number(),
            run: None,
        })?;
    }
    Ok(attempts)
}

/// Gives guesses to the attempts at their lines.
pub(crate) fn give_all(attempts: &mut [Attempt], guesses: Vec<Guess>)
    ensures numbers { numbers_of attempts.new ≡ numbers_of attempts.old }
    ensures right { (edit : ℕ → Option Edit) → (r : RecordingValue)
        → All (IsGuessIn edit r) guesses.items → All (IsAttempt edit r) attempts.old
        → All (IsAttempt edit r) attempts.new }
{
    for guess in guesses {
        give(attempts, guess);
    }
}

/// Gives a guess to the attempt at its line, if there is one.
fn give(attempts: &mut [Attempt], guess: Guess)
    ensures numbers { numbers_of attempts.new ≡ numbers_of attempts.old }
    ensures right { (edit : ℕ → Option Edit) → (r : RecordingValue) → IsGuessIn edit r guess
        → All (IsAttempt edit r) attempts.old → All (IsAttempt edit r) attempts.new }
{
    let Guess { number, run } = guess;
    if let Ok(place) = attempts.binary_search_by_key(&number, |attempt| attempt.number) {
        attempts[place].run = Some(run);
    }
}
