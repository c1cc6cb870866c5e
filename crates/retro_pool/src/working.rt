//! The work of a thread: taking jobs from a seat and running them.
ghost use Rattle.std.specs.Prelude.{◌≡◌, ◌-◌, [], ◌∷◌, ◌++◌, IfSome, MatchOption};
ghost use Rattle.std.specs.Prelude.{vec_capacity, vec_len};
ghost use Rattle.retro_pool.specs.Guesses.{IsGuessOf};
ghost use Rattle.retro_pool.specs.Work.{HasWorked};

use crate::guess::Guess;
use crate::job::Job;
use crate::seat::Seat;
use crate::take_outcome::TakeOutcome;
use retro_redo::{Gate, Ground};
use std::alloc::Global;

/// The number of answers `Busy` in a row after which a thread stops working.
const MAX_BUSY: u32 = 1000;

/// Takes jobs from a seat, runs them, and appends their guesses to `into`, in the order of taking.
/// Returns how many of the jobs gave no guess: memory ran out, or the ground's recording doesn't
/// have the line.
///
/// Stops if no job is left, after 1,000 answers `Busy` in a row, and before taking more jobs than
/// `into` had spare capacity for at the call.
pub fn work<S: Seat, G: Gate>(
    alloc: Global,
    seat: &mut S,
    ground: &Ground<'_, '_, '_>,
    gate: &G,
    into: &mut Vec<Guess>,
) -> usize
    ensures board { S.board seat.new ≡ S.board seat.old }
    ensures worked { HasWorked ground.now (vec_capacity into.old - vec_len into.old)
        (S.taken seat.old) (S.taken seat.new) into.old.items into.new.items result }
{
    let mut without = 0;
    for _ in 0..into.capacity() - into.len() {
        let Some(job) = take_job(seat) else {
            break;
        };
        match guess_of(alloc, job, ground, gate) {
            Some(guess) => match into.push(guess) {
                Ok(()) => {}
                Err(_) => unreachable!(),
            },
            None => without += 1,
        }
    }
    without
}

/// Takes the first job that is left. Returns `None` if none is, or if the seat is busy too often.
fn take_job<S: Seat>(seat: &mut S) -> Option<Job>
    ensures board { S.board seat.new ≡ S.board seat.old }
    ensures taken { MatchOption result (S.taken seat.new ≡ S.taken seat.old)
        (λ job. S.taken seat.new ≡ S.taken seat.old ++ job ∷ []) }
{
    for _ in 0..MAX_BUSY {
        match seat.take() {
            TakeOutcome::Got(job) => return Some(job),
            TakeOutcome::Bare => return None,
            TakeOutcome::Busy => {}
        }
    }
    None
}

/// Runs a job. Returns `None` if memory ran out, or if the ground's recording doesn't have the
/// line; the job is given back then.
fn guess_of<G: Gate>(
    alloc: Global,
    job: Job,
    ground: &Ground<'_, '_, '_>,
    gate: &G,
) -> Option<Guess>
    ensures { IfSome result (λ guess. IsGuessOf ground.now job guess) }
{
    if ground.recording().run_of(job.number()).is_none() {
        job.give_back();
        return None;
    }
    job.run(alloc, ground, gate).ok()
}
