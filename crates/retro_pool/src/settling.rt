//! The end of a board.
ghost use Rattle.std.specs.Prelude.{◌≡◌, ◌≢◌, ◌⊎◌, ◌≤◌, ◌^◌, [], ◌∷◌, ◌++◌, All, length};
ghost use Rattle.std.specs.Prelude.{MatchOption, MatchResult, map, vec_len};
ghost use Rattle.crossbeam_deque.specs.Handles.{SameWorker, worker_deque, worker_view};
ghost use Rattle.retro_pool.specs.Seats.{IsSettled, all_taken};
ghost use Rattle.retro_pool.specs.inner.Rule.{ArePlaced, returned};
ghost use Rattle.retro_pool.specs.declared.board_fault.BoardFault.TheVariants as faults;

use crate::board_fault::BoardFault;
use crate::owner::Owner;
use crate::rule::{Learn, Queue, TakeBack};
use crate::thief::Thief;

/// Which seat of a board took which jobs.
#[derive(Drop)]
pub struct Lists {
    /// The numbers of the jobs that each seat took, in the order of taking: the owner's, and then
    /// each thief's, by the numbers of their seats.
    pub seats: Vec<Vec<u32>>,
}

/// Ends a board, and returns which seat took which jobs. Each of the thieves must be of the owner's
/// board. Takes no memory, and doesn't wait.
///
/// # Errors
///
/// `Unsettled` unless all thieves of the board are there and each dealt job was taken. All seats
/// come back, and go on.
pub fn settle(owner: Owner, thieves: Vec<Thief>) -> Result<Lists, (BoardFault, Owner, Vec<Thief>)>
    requires { All (λ t. t.board ≡ owner.board) thieves.items }
    ensures { MatchResult result
        (λ lists. (vec_len thieves ≡ owner.thieves)
        × (all_taken owner thieves.items ≡ length owner.dealt)
        × IsSettled owner thieves.items (map (λ v. v.items) lists.seats.items))
        (λ refused. (refused.0 ≡ faults.Unsettled) × (refused.1 ≡ owner)
        × (refused.2 ≡ thieves)
        × ((vec_len thieves ≢ owner.thieves)
        ⊎ (all_taken owner thieves.items ≢ length owner.dealt))) }
{
    if thieves.len() != owner.thieves {
        return Err((BoardFault::Unsettled, owner, thieves));
    }
    if count_taken(&owner, thieves.as_slice()) != Some(owner.dealt) {
        return Err((BoardFault::Unsettled, owner, thieves));
    }
    Ok(take_all_back(owner, thieves))
}

/// Returns how many jobs all seats took, or `None` if there are too many to count.
fn count_taken(owner: &Owner, thieves: &[Thief]) -> Option<usize>
    ensures { MatchOption result (2 ^ 64 ≤ all_taken owner.now thieves.now)
        (λ count. count ≡ all_taken owner.now thieves.now) }
{
    let mut count = owner.taken.len();
    for thief in thieves {
        count = count.checked_add(thief.taken.len())?;
    }
    Some(count)
}

/// Puts the list of each seat into its place.
fn take_all_back(owner: Owner, thieves: Vec<Thief>) -> Lists
    requires board { All (λ t. t.board ≡ owner.board) thieves.items }
    requires count { vec_len thieves ≡ owner.thieves }
    requires total { all_taken owner thieves.items ≡ length owner.dealt }
    ensures { IsSettled owner thieves.items (map (λ v. v.items) result.seats.items) }
{
    let Owner {
        mut queue,
        thieves: _,
        room: _,
        dealt: _,
        taken,
        mut lists,
    } = owner;
    lists[0] = taken;
    for thief in thieves {
        take_back(&mut queue, &mut lists, thief);
    }
    queue.len_as::<Learn>();
    Lists { seats: lists }
}

/// Puts the list of a thief into its place.
fn take_back(queue: &mut Queue, lists: &mut Vec<Vec<u32>>, thief: Thief)
    requires board { thief.board ≡ (worker_deque queue.old).0 }
    requires placed { ArePlaced (worker_view queue.old) (map (λ v. v.items) lists.old.items) }
    ensures same { SameWorker queue.old queue.new }
    ensures view { (worker_view queue.new).dealt ≡ (worker_view queue.old).dealt }
    ensures more { (worker_view queue.new).back
        ≡ (worker_view queue.old).back ++ returned thief.number thief.taken ∷ [] }
    ensures rest { ((worker_view queue.new).taken ≡ (worker_view queue.old).taken)
        × ((worker_view queue.new).seats ≡ (worker_view queue.old).seats) }
    ensures placed { ArePlaced (worker_view queue.new) (map (λ v. v.items) lists.new.items) }
{
    let Thief {
        queue: _,
        pass,
        number,
        room: _,
        taken,
    } = thief;
    queue.absorb::<TakeBack>(pass);
    queue.len_as::<Learn>();
    lists[number] = taken;
}
