//! The seat of the owner.
ghost use Rattle.std.specs.Prelude.{◌≡◌, ◌<◌, ◌≤◌, [], ◌∷◌, ◌++◌, length, IfNone};
ghost use Rattle.std.specs.Prelude.{MatchOption, MatchResult};
ghost use Rattle.retro_pool.specs.Seats.{HasSameBoard};
ghost use Rattle.retro_pool.specs.declared.board_fault.BoardFault.TheVariants as faults;

use crate::board_fault::BoardFault;
use crate::job::Job;
use crate::rule::{Deal, Queue, TakeNext};
use std::marker::Model;

/// The seat of a board's owner, which deals jobs and takes jobs.
#[derive(Drop)]
pub struct Owner {
    pub(crate) queue: Queue,
    /// The number of thieves that were seated.
    pub(crate) thieves: usize,
    /// The number of jobs that the board has room for.
    pub(crate) room: usize,
    /// The number of dealt jobs.
    pub(crate) dealt: usize,
    /// The jobs that were taken, in order. It has capacity for `room` jobs.
    pub(crate) taken: Vec<u32>,
    /// A place for the list of each seat, so that `settle` takes no memory.
    pub(crate) lists: Vec<Vec<u32>>,
}

impl Model for Owner {
    ghost use Rattle.std.specs.Prelude.{◌≡◌, ℕ, ◌+◌, ◌<◌, ◌≤◌, length, vec_len, vec_capacity, []};
    ghost use Rattle.retro_pool.specs.Seats.{OwnerValue};

    ghost Value = { OwnerValue };

    ghost use Rattle.retro_pool.specs.inner.Rule.{owner};
    ghost use Rattle.crossbeam_deque.specs.Handles.{worker_capacity, worker_deque, worker_flavor};
    ghost use Rattle.crossbeam_deque.specs.Handles.{worker_index, worker_view};

    ghost view = { λ o. record {
      board = (worker_deque o.queue).0;
      thieves = o.thieves;
      room = o.room;
      dealt = (worker_view o.queue).dealt;
      taken = o.taken.items;
    } };

    ghost invariant = { λ o.
        (worker_view o.queue
        ≡ owner (o.thieves + 1) o.room (worker_view o.queue).dealt o.taken.items [])
        × (worker_flavor o.queue ≡ 0) × (o.dealt ≡ length (worker_view o.queue).dealt)
        × (o.dealt ≤ o.room) × (worker_index o.queue ≤ o.dealt)
        × (o.room ≤ worker_capacity o.queue) × (o.room ≤ vec_capacity o.taken)
        × (vec_len o.lists ≡ o.thieves + 1) };
}

impl Owner {
    /// Deals a job to the end of the queue. Takes no memory, and doesn't wait.
    ///
    /// # Errors
    ///
    /// `BoardFull` once as many jobs were dealt as the board has room for. The job comes back, and
    /// the board is unchanged.
    pub fn deal(&mut self, job: Job) -> Result<(), (BoardFault, Job)>
        ensures same { HasSameBoard self.old self.new }
        ensures taken { self.new.taken ≡ self.old.taken }
        ensures dealt { MatchResult result
            (λ _. (length self.old.dealt < self.old.room)
            × (self.new.dealt ≡ self.old.dealt ++ job ∷ []))
            (λ refused. (self.old.room ≤ length self.old.dealt)
            × (refused.0 ≡ faults.BoardFull) × (refused.1 ≡ job)
            × (self.new.dealt ≡ self.old.dealt)) }
    {
        if self.dealt >= self.room {
            return Err((BoardFault::BoardFull, job));
        }
        match self.queue.push_as::<Deal>(job.give_back()) {
            Ok(()) => {}
            Err(_) => unreachable!(),
        }
        self.dealt += 1;
        Ok(())
    }

    /// Takes the first job that is left, or returns `None` if none was left at that moment. Takes
    /// no memory, and doesn't wait.
    pub fn next(&mut self) -> Option<Job>
        ensures same { HasSameBoard self.old self.new }
        ensures dealt { self.new.dealt ≡ self.old.dealt }
        ensures taken { MatchOption result (self.new.taken ≡ self.old.taken)
            (λ job. self.new.taken ≡ self.old.taken ++ job ∷ []) }
        ensures none { IfNone result
            (self.old.thieves ≡ 0 → self.old.taken ≡ self.old.dealt) }
    {
        let number = self.queue.pop_as::<TakeNext>()?;
        match self.taken.push(number) {
            Ok(()) => {}
            Err(_) => unreachable!(),
        }
        Some(Job::new(number))
    }
}
