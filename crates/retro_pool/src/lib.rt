//! The board of a round: the jobs that threads steal.
//!
//! A *job* is a line to run ahead of its turn, and a *guess* is what such a run gives.
//! [`make_jobs`] makes the jobs of a round. [`Board::new`] makes a board: the seat of its [`Owner`]
//! and a seat for each [`Thief`]. The owner deals jobs to the end of the board's queue. Owner and
//! thieves take them from its front, each seat perhaps in a thread of its own. [`settle`] ends a
//! board and returns which seat took which jobs.
//!
//! In every schedule each dealt job is taken at most once, by one seat. A board is settled only if
//! all its seats come back and each dealt job was taken; then the lists of its seats have each
//! dealt job exactly once, and each list is in the order of dealing. The queue is a deque of
//! `crossbeam_deque`. There is no lock: no call waits for another thread.
//!
//! [`work`] takes jobs from a [`Seat`], runs them and collects their guesses.
//!
//! A board takes all its memory when it is made. Calls that take an allocator return `NoMem` if
//! allocation fails, unless their documentation says otherwise.
//!
//! Start reading at `board.rt`, then `owner.rt`, `thief.rt` and `settling.rt`.
//!
//! # What is proved
//!
//! - `make_jobs` returns a job for each of the given numbers whose line is stale in the ground's
//!   view before it, in order: a replaced line always is, a cancelled one never, and any other one
//!   if its notes don't hold there. `Job::run` returns a guess that has the job's number: a run of
//!   the line's new text in its session, whose notes hold in that view [`number`, `guess`].
//!   `give_back` returns the number. A job is spent by one of the two, since its type is neither
//!   copied nor dropped.
//! - `Board::new` returns the seats of a new board [`owner`, `count`, `thieves`, `board`]. Over 16
//!   thieves it returns `TooManySeats`, exactly then, and else `OutOfMemory` at most [`accepted`,
//!   `refused`].
//! - `deal` puts a job at the end of the dealt jobs, exactly as often as there is room; then it
//!   returns `BoardFull` with the job, and nothing changes. `next` and `steal` return the job that
//!   they put at the end of their seat's list; if they return none, no list changes [`taken`].
//!   Without thieves `next` returns `None` only if all dealt jobs were taken [`none`].
//! - `settle` returns the lists of the seats, exactly if all thieves of the board are there and as
//!   many jobs were taken as dealt. Each dealt job is then in one of the lists, once, in every
//!   schedule (`specs/Turns.antt`). Otherwise it returns `Unsettled` with all seats, unchanged.
//!   Each list is in the order of dealing (`settled_lists_are_in_the_order_of_dealing`), and rises
//!   if the numbers were dealt rising (`settled_lists_rise`).
//! - `work` appends the guesses of the jobs that it takes, in the order of taking, and counts the
//!   jobs that gave none. It takes no more jobs than there was spare capacity for [`worked`].
//! - `deal`, `next`, `steal`, `settle` and `work` have no handle that waits, and all but `work` no
//!   allocator, by their signatures. That `Bare` and `None` come only from an empty queue, if there
//!   are thieves, and that `work` gives a job up only if its line isn't there or memory ran out, is
//!   only tested. That `work` asks a busy seat 1,000 times is neither.
#![tactic(auto)]

mod board;
mod board_fault;
mod guess;
mod job;
mod jobs;
mod laws;
mod owner;
mod rule;
mod seat;
mod seat_knowledge;
mod settling;
mod take_outcome;
mod thief;
mod working;

pub use board::{Board, MAX_THIEVES};
pub use board_fault::BoardFault;
pub use guess::Guess;
pub use job::Job;
pub use jobs::{give_all_back, make_jobs};
pub use laws::{settled_lists_are_in_the_order_of_dealing, settled_lists_rise};
pub use owner::Owner;
pub use seat::Seat;
pub use settling::{Lists, settle};
pub use take_outcome::TakeOutcome;
pub use thief::Thief;
pub use working::work;
