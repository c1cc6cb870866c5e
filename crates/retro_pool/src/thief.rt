//! The seats of thieves.
ghost use Rattle.std.specs.Prelude.{◌≡◌, ◌+◌, [], ◌∷◌, ◌++◌, IfOk};
ghost use Rattle.crossbeam_deque.specs.Handles.{SameWorker, worker_deque, worker_flavor};
ghost use Rattle.crossbeam_deque.specs.Handles.{worker_index, worker_view};
ghost use Rattle.retro_pool.specs.Seats.{new_thief};
ghost use Rattle.retro_pool.specs.TakeOutcome.{IfGot};
ghost use Rattle.retro_pool.specs.inner.Rule.{owner};

use crate::job::Job;
use crate::rule::{AddSeat, Queue, QueueEnd, Steal, ThiefPass};
use crate::take_outcome::TakeOutcome;
use retro_tree::NoMem;
use std::alloc::Global;
use std::marker::Model;

/// The seat of a thief, which takes jobs. It may be used in a thread of its own.
#[derive(Drop)]
pub struct Thief {
    pub(crate) queue: QueueEnd,
    pub(crate) pass: ThiefPass,
    /// The number of the seat, from 1 on.
    pub(crate) number: usize,
    /// The number of jobs that the board has room for.
    pub(crate) room: usize,
    /// The jobs that were taken, in order. It has capacity for `room` jobs.
    pub(crate) taken: Vec<u32>,
}

impl Model for Thief {
    ghost use Rattle.std.specs.Prelude.{◌≡◌, ℕ, ◌+◌, ◌<◌, ◌≤◌, vec_capacity};
    ghost use Rattle.retro_pool.specs.Seats.{ThiefValue};

    ghost Value = { ThiefValue };

    ghost use Rattle.retro_pool.specs.inner.Rule.{thief};
    ghost use Rattle.crossbeam_deque.specs.Handles.{view as known, IsPassOf, stealer_deque};
    ghost use Rattle.crossbeam_deque.specs.Handles.{stealer_flavor};

    ghost view = { λ t. record {
      board = (stealer_deque t.queue).0;
      number = t.number;
      taken = t.taken.items;
    } };

    ghost invariant = { λ t.
        IsPassOf (stealer_deque t.queue) t.pass
        × (known t.pass ≡ thief t.number t.room t.taken.items)
        × (stealer_flavor t.queue ≡ 0) × (t.room ≤ vec_capacity t.taken) };
}

impl Thief {
    /// Makes the seat with the given number of a board on which nothing is dealt.
    pub(crate) fn new(
        alloc: Global,
        queue: &mut Queue,
        number: usize,
        room: usize,
    ) -> Result<Thief, NoMem>
        requires flavor { worker_flavor queue.old ≡ 0 }
        requires view { worker_view queue.old ≡ owner number room [] [] [] }
        ensures same { SameWorker queue.old queue.new
            × (worker_index queue.new ≡ worker_index queue.old) }
        ensures seated { IfOk result (λ t.
            (t ≡ new_thief (worker_deque queue.old).0 number)
            × (worker_view queue.new ≡ owner (number + 1) room [] [] [])) }
    {
        let end = queue.stealer()?;
        let taken = Vec::with_capacity(alloc, room)?;
        let pass = queue.another::<AddSeat>();
        Ok(Thief {
            queue: end,
            pass,
            number,
            room,
            taken,
        })
    }

    /// Takes the first job that is left. Takes no memory, and doesn't wait.
    pub fn steal(&mut self) -> TakeOutcome
        ensures board { self.new.board ≡ self.old.board }
        ensures number { self.new.number ≡ self.old.number }
        ensures taken { IfGot result (λ job. self.new.taken ≡ self.old.taken ++ job ∷ [])
            (self.new.taken ≡ self.old.taken) }
    {
        match self.queue.steal_as::<Steal>(&mut self.pass) {
            crossbeam_deque::Steal::Success(number) => {
                match self.taken.push(number) {
                    Ok(()) => {}
                    Err(_) => unreachable!(),
                }
                TakeOutcome::Got(Job::new(number))
            }
            crossbeam_deque::Steal::Empty => TakeOutcome::Bare,
            crossbeam_deque::Steal::Retry => TakeOutcome::Busy,
        }
    }
}
