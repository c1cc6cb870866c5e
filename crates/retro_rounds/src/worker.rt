//! The workers of a round.
ghost use Rattle.std.specs.Prelude.{◌≡◌, ℕ, [], All, IfOk, OnOk, vec_len};
ghost use Rattle.retro_rounds.specs.inner.Workers.{AreOn, HasGuesses, board_of};

use crate::any_seat::AnySeat;
use crate::crew::Crew;
use retro_pool::{Guess, Owner, Thief, work};
use retro_redo::{Gate, Ground};
use retro_tree::NoMem;
use std::alloc::Global;
use std::thread;
use std::thread::Threads;

/// A seat of a round's board, and the guesses of the jobs that were taken from it.
#[derive(Drop)]
pub(crate) struct Worker {
    pub(crate) seat: AnySeat,
    pub(crate) guesses: Vec<Guess>,
}

impl Worker {
    /// Returns a worker with a seat, and with room for so many guesses, or for none if memory runs
    /// out: it takes no job then.
    fn new(alloc: Global, seat: AnySeat, room: usize) -> Worker
        ensures seat { result.seat ≡ seat }
        ensures none { result.guesses.items ≡ [] }
    {
        let guesses = match Vec::with_capacity(alloc, room) {
            Ok(guesses) => guesses,
            Err(_) => Vec::new(alloc),
        };
        Worker { seat, guesses }
    }

    /// Takes jobs and runs them, until none is left or there is no room for another guess.
    fn work<G: Gate>(&mut self, alloc: Global, ground: &Ground<'_, '_, '_>, gate: &G)
        requires { HasGuesses ground.now self.old }
        ensures board { board_of self.new.seat ≡ board_of self.old.seat }
        ensures right { HasGuesses ground.now self.new }
    {
        // A line whose job gave no guess is run at its turn.
        let _without = work(alloc, &mut self.seat, ground, gate, &mut self.guesses);
    }
}

/// Returns a worker for each seat of a board, with room for so many guesses: the thieves', and then
/// the owner's.
pub(crate) fn workers_of(
    alloc: Global,
    owner: Owner,
    thieves: &mut Vec<Thief>,
    room: usize,
) -> Result<Vec<Worker>, NoMem>
    requires { All (λ t. t.board ≡ owner.board) thieves.old.items }
    ensures none { OnOk result (vec_len thieves.new ≡ 0) }
    ensures board { IfOk result (λ workers. AreOn owner.board workers.items) }
    ensures idle { IfOk result (λ workers. All (λ w. w.guesses.items ≡ []) workers.items) }
{
    let mut workers = Vec::with_capacity(alloc, thieves.len() + 1)?;
    let mine = Worker {
        seat: AnySeat::Owner(owner),
        guesses: Vec::with_capacity(alloc, room)?,
    };
    while let Some(thief) = thieves.pop() {
        workers.push(Worker::new(alloc, AnySeat::Thief(thief), room))?;
    }
    workers.push(mine)?;
    Ok(workers)
}

/// Lets all workers run jobs, each in a thread of its own, and the last one in this thread. A
/// worker whose thread doesn't start works in this thread, after the others.
pub(crate) fn work_all<R: Threads + Sync, G: Gate + Sync>(
    crew: &Crew<'_, R>,
    alloc: Global,
    workers: &mut [Worker],
    ground: &Ground<'_, '_, '_>,
    gate: &G,
)
    requires right { All (HasGuesses ground.now) workers.old }
    ensures board { (b : ℕ × ℕ) → AreOn b workers.old → AreOn b workers.new }
    ensures right { All (HasGuesses ground.now) workers.new }
{
    let count = workers.len();
    if count == 0 {
        return;
    }
    thread::for_each_mut(
        crew.rt,
        workers,
        count,
        &|_, worker: &mut Worker|
            requires { HasGuesses ground.now worker.now }
            ensures { (board_of worker.exit.now.seat ≡ board_of worker.entry.now.seat)
                × HasGuesses ground.entry.now worker.exit.now }
        { worker.work(alloc, ground, gate) },
    );
}
