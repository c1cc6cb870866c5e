//! The rule of the board: what each step of a seat changes and tells.
ghost use Rattle.std.specs.Prelude.{◌≡◌, ℕ, ◌≤◌, [], length};
ghost use Rattle.retro_pool.specs.inner.Rule.{FollowsRule, Sees, nobody, owner, thief};
ghost use Rattle.retro_pool.specs.inner.Rule.{dealt_more, one_more_back, one_seat_more, taken_more};

use crate::seat_knowledge::SeatKnowledge;
use crossbeam_deque::protocol::{Join, Lesson, Outcome, Protocol, Split};
use crossbeam_deque::{Pass, Stealer, Worker};
use std::alloc::Global;
use std::marker::{Brand, PhantomData};

/// The owner's end of the queue.
pub(crate) type Queue = Worker<u32, Global, SeatKnowledge, Rule>;

/// A thief's end of the queue.
pub(crate) type QueueEnd = Stealer<u32, Global, SeatKnowledge, Rule>;

/// What a thief knows of the queue.
pub(crate) type ThiefPass = Pass<u32, SeatKnowledge>;

/// The rule of the board.
pub struct Rule;

impl Protocol<u32, SeatKnowledge> for Rule {
    ghost holds = { FollowsRule };

    ghost first = { owner 1 0 [] [] [] };

    ghost guest = { nobody };
}

/// The owner deals a job.
pub struct Deal;

impl Outcome<u32, SeatKnowledge> for Deal {
    ghost then = { λ v xs w. w ≡ dealt_more v xs };
}

/// A thief takes a job.
pub struct Steal;

impl Outcome<u32, SeatKnowledge> for Steal {
    ghost then = { λ v xs w. (w ≡ taken_more v xs) × (length w.taken ≤ v.room) };
}

/// The owner takes a job. If it finds none and there is no thief, it took all dealt jobs.
pub struct TakeNext;

impl Outcome<u32, SeatKnowledge> for TakeNext {
    ghost then = { λ v xs w. (w ≡ taken_more v xs) × (length w.taken ≤ v.room) };

    ghost empty = { λ v. v.seats ≡ 1 → v.taken ≡ v.dealt };
}

/// The number of jobs that a board has room for. Each call of `set_room` picks it.
pub trait Room {
    ghost room: { ℕ };
}

impl Room for Brand {
    ghost room = { 0 };
}

/// The room of the board is set.
pub struct SetRoom<B: Room> {
    of: PhantomData<B>,
}

impl<B: Room> Split<SeatKnowledge> for SetRoom<B> {
    ghost left = { λ v. owner v.seats B.room v.dealt v.taken v.back };

    ghost right = { λ v. nobody };
}

/// A thief gets a seat.
pub struct AddSeat;

impl Split<SeatKnowledge> for AddSeat {
    ghost left = { one_seat_more };

    ghost right = { λ v. thief v.seats v.room [] };
}

/// The owner takes the list of a thief back.
pub struct TakeBack;

impl Join<SeatKnowledge> for TakeBack {
    ghost both = { one_more_back };

    ghost spent = { nobody };
}

/// The owner learns what the lists have that it took back.
pub struct Learn;

impl Lesson<u32, SeatKnowledge> for Learn {
    ghost fact = { Sees };
}
