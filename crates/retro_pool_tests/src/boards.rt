//! Which seat of a board takes which job.
ghost use Rattle.std.specs.Prelude.{◌≡◌, ◌<◌, ℕ, All, vec_len};

use crate::grounds::{LINES, jobs_of};
use retro_pool::{Board, BoardFault, Job, Owner, Seat, TakeOutcome, Thief, settle};
use retro_rows::fail;
use std::test::Fail;

/// Deals jobs in order. Returns the number of the last refusal, and the job that came back.
pub fn deal_all(owner: &mut Owner, mut jobs: Vec<Job>) -> Option<(u8, u32)>
    ensures { owner.new.board ≡ owner.old.board }
{
    jobs.as_mut_slice().reverse();
    let mut refused = None;
    while let Some(job) = jobs.pop() {
        if let Err((fault, job)) = owner.deal(job) {
            refused = Some((fault.number(), job.give_back()));
        }
    }
    jobs.destroy_empty();
    refused
}

/// Takes the owner's next job.
fn next(owner: &mut Owner) -> Option<u32>
    ensures { owner.new.board ≡ owner.old.board }
{
    owner.next().map(|job| job.give_back())
}

/// Takes a job. A busy seat is asked at most 1,000 times.
fn steal(thief: &mut Thief) -> Result<u32, &'static str>
    ensures { thief.new.board ≡ thief.old.board }
{
    for _ in 0..1000 {
        match thief.take() {
            TakeOutcome::Got(job) => return Ok(job.give_back()),
            TakeOutcome::Bare => return Err("bare"),
            TakeOutcome::Busy => {}
        }
    }
    Err("busy")
}

/// Takes a job from one of the seats.
fn steal_at(thieves: &mut Vec<Thief>, k: usize) -> Result<u32, &'static str>
    requires { k < vec_len thieves.old }
    ensures len { vec_len thieves.new ≡ vec_len thieves.old }
    ensures boards { (b : ℕ × ℕ) → All (λ t. t.board ≡ b) thieves.old.items
        → All (λ t. t.board ≡ b) thieves.new.items }
{
    steal(&mut thieves[k])
}

#[test]
fn three_jobs_are_taken_by_three_seats(rt: HostRuntime) -> Result<(), Fail> {
    let alloc = rt.alloc();
    let (mut owner, mut thieves) = Board::new(alloc, 2, 3)?;
    assert_eq!(rt; thieves.len(), 2);
    assert_eq!(rt; deal_all(&mut owner, jobs_of(alloc, LINES)?), Some((19, 5)));
    assert_eq!(rt; steal_at(&mut thieves, 0), Ok(2));
    assert_eq!(rt; next(&mut owner), Some(3));
    let (mut owner, mut thieves) = match settle(owner, thieves) {
        Ok(_) => return fail("settled"),
        Err((fault, owner, thieves)) => {
            assert_eq!(rt; fault.number(), 18);
            (owner, thieves)
        }
    };
    assert_eq!(rt; thieves.len(), 2);
    assert_eq!(rt; steal_at(&mut thieves, 1), Ok(4));
    assert_eq!(rt; next(&mut owner), None);
    assert_eq!(rt; steal_at(&mut thieves, 0), Err("bare"));
    match settle(owner, thieves) {
        Ok(lists) => {
            assert_eq!(rt; lists.seats.len(), 3);
            assert_eq!(rt; lists.seats[0].as_slice(), [3].as_slice());
            assert_eq!(rt; lists.seats[1].as_slice(), [2].as_slice());
            assert_eq!(rt; lists.seats[2].as_slice(), [4].as_slice());
        }
        Err(_) => return fail("not settled"),
    }
    Ok(())
}

#[test]
fn the_owner_takes_all_jobs_that_idle_thieves_leave(rt: HostRuntime) -> Result<(), Fail> {
    let alloc = rt.alloc();
    let (mut owner, thieves) = Board::new(alloc, 2, 3)?;
    assert_eq!(rt; deal_all(&mut owner, jobs_of(alloc, LINES)?), Some((19, 5)));
    assert_eq!(rt; next(&mut owner), Some(2));
    assert_eq!(rt; next(&mut owner), Some(3));
    assert_eq!(rt; next(&mut owner), Some(4));
    assert_eq!(rt; next(&mut owner), None);
    match settle(owner, thieves) {
        Ok(lists) => {
            assert_eq!(rt; lists.seats.len(), 3);
            assert_eq!(rt; lists.seats[0].as_slice(), [2, 3, 4].as_slice());
            assert_eq!(rt; lists.seats[1].is_empty(), true);
            assert_eq!(rt; lists.seats[2].is_empty(), true);
        }
        Err(_) => return fail("not settled"),
    }
    Ok(())
}

#[test]
fn boards_are_refused_for_their_size(rt: HostRuntime) -> Result<(), Fail> {
    for (thieves, room, want) in [(16, 1, None), (17, 1, Some(20)), (2, 1 << 60, Some(17))] {
        let refused = match Board::new(rt.alloc(), thieves, room) {
            Ok(_) => None,
            Err(fault) => Some(fault.number()),
        };
        assert_eq!(rt; refused, want);
    }
    assert_eq!(rt; BoardFault::BoardFull.number(), 19);
    Ok(())
}

#[test]
fn a_missing_thief_is_refused(rt: HostRuntime) -> Result<(), Fail> {
    let (owner, mut thieves) = Board::new(rt.alloc(), 2, 3)?;
    let first = thieves.pop();
    match settle(owner, thieves) {
        Ok(_) => return fail("settled"),
        Err((fault, _, thieves)) => {
            assert_eq!(rt; fault.number(), 18);
            assert_eq!(rt; thieves.len(), 1);
        }
    }
    drop(first);
    Ok(())
}
