//! The guesses of a round.
ghost use Rattle.std.specs.Prelude.{◌≡◌, ℕ, All, IfOk, None, vec_len};
ghost use Rattle.retro_redo.specs.Ground.{GroundValue, edit_lent};
ghost use Rattle.retro_rounds.specs.inner.Attempts.{IsAttempt, numbers_of};
ghost use Rattle.retro_rounds.specs.inner.Workers.{AreOf, AreOn, HasGuesses, board_of};

use crate::any_seat::AnySeat;
use crate::attempt::{Attempt, attempts_at, give_all};
use crate::crew::Crew;
use crate::worker::{Worker, work_all, workers_of};
use retro_pool::{Board, Job, Owner, Thief, give_all_back, settle};
use retro_redo::{Gate, Ground};
use retro_tree::NoMem;
use std::alloc::{AllocError, Global};
use std::thread::Threads;

/// The seats of a round's board, and an attempt for each of its jobs.
struct Round {
    owner: Owner,
    thieves: Vec<Thief>,
    attempts: Vec<Attempt>,
}

/// Runs jobs over the combined states before their lines. Returns what came of each, in order.
/// Calls the observer before and after each execution.
///
/// All memory that is needed beside that of the runs is taken before a thread starts. The jobs lie
/// on a board. The crew's threads steal from it while this thread takes from it too, until none is
/// left.
#[tactic(auto, using(crate::proofs::Gathered::idle_all))]
pub(crate) fn guesses_of<R: Threads + Sync, G: Gate + Sync>(
    crew: &Crew<'_, R>,
    alloc: Global,
    ground: &Ground<'_, '_, '_>,
    jobs: Vec<Job>,
    gate: &G,
) -> Result<Vec<Attempt>, NoMem>
    ensures numbers { IfOk result (λ attempts. numbers_of attempts.items ≡ jobs.items) }
    ensures right { IfOk result (λ attempts.
        All (IsAttempt (edit_lent ground.now) ground.now.recording) attempts.items) }
{
    if jobs.is_empty() {
        jobs.destroy_empty();
        return Ok(Vec::new(alloc));
    }
    let room = jobs.len();
    let Round {
        mut owner,
        mut thieves,
        mut attempts,
    } = match open_round(alloc, crew.threads_for(room), jobs.as_slice()) {
        Ok(round) => round,
        Err(error) => {
            give_all_back(jobs);
            return Err(error);
        }
    };
    deal_all(&mut owner, jobs);
    let mut workers = workers_of(alloc, owner, &mut thieves, room)?;
    work_all(crew, alloc, workers.as_mut_slice(), ground, gate);
    end_round(workers, thieves, attempts.as_mut_slice());
    Ok(attempts)
}

/// Takes the memory for a round with so many threads.
fn open_round(alloc: Global, threads: usize, jobs: &[Job]) -> Result<Round, NoMem>
    ensures numbers { IfOk result (λ round. numbers_of round.attempts.items ≡ jobs.now) }
    ensures none { IfOk result (λ round. All (λ a. a.run ≡ None) round.attempts.items) }
    ensures board { IfOk result (λ round.
        All (λ t. t.board ≡ round.owner.board) round.thieves.items) }
{
    let attempts = attempts_at(alloc, jobs)?;
    match Board::new(alloc, threads, jobs.len()) {
        Ok((owner, thieves)) => Ok(Round {
            owner,
            thieves,
            attempts,
        }),
        Err(_) => Err(AllocError),
    }
}

/// Deals jobs in order.
fn deal_all(owner: &mut Owner, mut jobs: Vec<Job>)
    ensures { owner.new.board ≡ owner.old.board }
{
    jobs.as_mut_slice().reverse();
    while let Some(job) = jobs.pop() {
        if let Err((_, job)) = owner.deal(job) {
            // The board has room for all jobs. The line of one that isn't dealt is run at its turn.
            job.give_back();
        }
    }
    jobs.destroy_empty();
}

/// Gives the guesses of all workers to the attempts at their lines, and settles the board. The
/// workers must have the seats of one board.
fn end_round(workers: Vec<Worker>, mut thieves: Vec<Thief>, attempts: &mut [Attempt])
    requires board { (b : ℕ × ℕ) × AreOn b workers.items }
    requires none { vec_len thieves ≡ 0 }
    ensures numbers { numbers_of attempts.new ≡ numbers_of attempts.old }
    ensures right { (g : GroundValue) → All (HasGuesses g) workers.items
        → All (IsAttempt (edit_lent g) g.recording) attempts.old
        → All (IsAttempt (edit_lent g) g.recording) attempts.new }
{
    let mut owner = None;
    for worker in workers {
        let Worker { seat, guesses } = worker;
        give_all(attempts, guesses);
        put_back(seat, &mut owner, &mut thieves);
    }
    if let Some(owner) = owner {
        // A line whose job nobody took would be run at its turn.
        let _ = settle(owner, thieves);
    }
}

/// Puts a seat back to the others of its board.
fn put_back(seat: AnySeat, owner: &mut Option<Owner>, thieves: &mut Vec<Thief>)
    ensures { (b : ℕ × ℕ) → board_of seat ≡ b → AreOf b owner.old thieves.old.items
        → AreOf b owner.new thieves.new.items }
{
    match seat {
        AnySeat::Owner(seat) => *owner = Some(seat),
        AnySeat::Thief(seat) => {
            // A thief that found no room would be missed by `settle`.
            let _ = thieves.push(seat);
        }
    }
}
