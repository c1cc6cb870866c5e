//! Boards.
ghost use Rattle.std.specs.Prelude.{◌≡◌, ◌+◌, ◌≤◌, [], All, IfErr, IfOk, OnOk, vec_len};
ghost use Rattle.crossbeam_deque.specs.Handles.{SameWorker, worker_index, worker_view};
ghost use Rattle.retro_pool.specs.BoardFault.{IsRefusal};
ghost use Rattle.retro_pool.specs.Seats.{AreNew, new_owner};
ghost use Rattle.retro_pool.specs.inner.Rule.{owner};

use crate::board_fault::BoardFault;
use crate::owner::Owner;
use crate::rule::{Queue, Room, SetRoom};
use crate::thief::Thief;
use retro_tree::NoMem;
use std::alloc::Global;
use std::marker::Brand;

/// The greatest number of thieves of a board.
pub const MAX_THIEVES: usize = 16;

/// A board of jobs. Its parts are its seats: [`Board::new`] returns them.
pub struct Board;

impl Board {
    /// Makes a board on which `room` jobs can be dealt, and returns the seats of its owner and of
    /// its thieves, with numbers from 1 on. All memory that the board needs is taken here.
    ///
    /// # Errors
    ///
    /// `TooManySeats` over [`MAX_THIEVES`], else `OutOfMemory`.
    pub fn new(
        alloc: Global,
        thieves: usize,
        room: usize,
    ) -> Result<(Owner, Vec<Thief>), BoardFault>
        ensures owner { IfOk result (λ seats. seats.0 ≡ new_owner seats.0.board thieves room) }
        ensures count { IfOk result (λ seats. vec_len seats.1 ≡ thieves) }
        ensures thieves { IfOk result (λ seats. AreNew seats.0.board 1 seats.1.items) }
        ensures board { IfOk result (λ seats. All (λ t. t.board ≡ seats.0.board) seats.1.items) }
        ensures accepted { OnOk result (thieves ≤ MAX_THIEVES) }
        ensures refused { IfErr result (λ fault. IsRefusal thieves fault) }
    {
        if thieves > MAX_THIEVES {
            return Err(BoardFault::TooManySeats);
        }
        match make_seats(alloc, thieves, room) {
            Ok(seats) => Ok(seats),
            Err(_) => Err(BoardFault::OutOfMemory),
        }
    }
}

/// Makes the seats of a board.
fn make_seats(alloc: Global, thieves: usize, room: usize) -> Result<(Owner, Vec<Thief>), NoMem>
    requires { thieves ≤ MAX_THIEVES }
    ensures { IfOk result (λ seats. (seats.0 ≡ new_owner seats.0.board thieves room)
        × (vec_len seats.1 ≡ thieves) × AreNew seats.0.board 1 seats.1.items) }
{
    let mut queue = Queue::fifo_as(alloc, room)?;
    set_room::<Brand>(&mut queue, room);
    let taken = Vec::with_capacity(alloc, room)?;
    let lists = empty_lists(alloc, thieves + 1)?;
    let mut seats = Vec::with_capacity(alloc, thieves)?;
    for k in 0..thieves {
        seats.push(Thief::new(alloc, &mut queue, k + 1, room)?)?;
    }
    let owner = Owner {
        queue,
        thieves,
        room,
        dealt: 0,
        taken,
        lists,
    };
    Ok((owner, seats))
}

/// Sets how many jobs can be dealt on a board without thieves.
fn set_room<B: Room>(queue: &mut Queue, room: usize)
    requires view { worker_view queue.old ≡ owner 1 0 [] [] [] }
    requires room { room ≡ B.room }
    ensures same { SameWorker queue.old queue.new
        × (worker_index queue.new ≡ worker_index queue.old) }
    ensures view { worker_view queue.new ≡ owner 1 room [] [] [] }
{
    drop(queue.another::<SetRoom<B>>());
}

/// Returns `count` empty lists.
fn empty_lists(alloc: Global, count: usize) -> Result<Vec<Vec<u32>>, NoMem>
    ensures { IfOk result (λ lists. vec_len lists ≡ count) }
{
    let mut lists = Vec::with_capacity(alloc, count)?;
    for _ in 0..count {
        lists.push(Vec::new(alloc))?;
    }
    Ok(lists)
}
