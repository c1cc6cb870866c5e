//! Steps whose calls on the spool or the watched folders fail.
use crate::memory::{Failing, MemorySpool, begins_with};
use crate::steps::{act, go, new_lines, step_of, whole_of};
use crate::worlds::MemoryWatched;
use casebook_observe::{ObserveError, SpoolError, WatchError};
use retro_rows::{fail, utf8};
use std::alloc::Global;
use std::test::Fail;

/// A step that fails, and the spools before and after it.
#[derive(Drop)]
struct Case<'s> {
    /// What is done.
    what: &'s str,
    /// What the watched folders hold then.
    world: &'s str,
    /// The spool before it.
    before: &'s MemorySpool,
    /// The spool after it, if nothing fails.
    after: &'s MemorySpool,
}

/// Fails if something that was whole is lost.
fn loses_nothing(alloc: Global, before: &MemorySpool, now: &MemorySpool) -> Result<(), Fail> {
    if now.first.as_slice() != before.first.as_slice()
        || now.listing.as_slice() != before.listing.as_slice()
        || !begins_with(now.kept.as_slice(), before.kept.as_slice())
    {
        return fail("something is lost");
    }
    new_lines(alloc, before, now)?;
    Ok(())
}

/// Does the step of a case, with a call that fails. Fails unless it returns this error and loses
/// nothing that was whole.
fn breaks(
    alloc: Global,
    case: &Case<'_>,
    spool: &mut MemorySpool,
    failing: Option<(u32, WatchError)>,
    wanted: ObserveError,
) -> Result<(), Fail> {
    let mut watched = MemoryWatched::of(alloc, case.world)?;
    watched.failing = failing;
    if act(alloc, spool, &mut watched, case.what)? != Err(wanted) {
        return fail("another error");
    }
    spool.failing = None;
    loses_nothing(alloc, case.before, spool)
}

/// Does the step of a case again, after one that failed. Fails unless the spool is as if nothing
/// had failed.
fn goes_on(alloc: Global, case: &Case<'_>, spool: &mut MemorySpool) -> Result<(), Fail> {
    let mut watched = MemoryWatched::of(alloc, case.world)?;
    act(alloc, spool, &mut watched, case.what)??;
    if !spool.is_same(case.after) {
        return fail("another spool after a failure");
    }
    Ok(())
}

/// Returns the error of an observation whose spool has this error.
fn of_spool(error: SpoolError) -> ObserveError {
    match error {
        SpoolError::NoMem => ObserveError::NoMem,
        SpoolError::Failed => ObserveError::Spool(error),
    }
}

/// Returns the error of an observation whose watched folders have this error.
fn of_watched(error: WatchError) -> ObserveError {
    match error {
        WatchError::NoMem => ObserveError::NoMem,
        WatchError::Failed | WatchError::TooSlow => ObserveError::Watched(error),
    }
}

/// Lets each call on the spool fail, with each error.
fn spool_fails(alloc: Global, case: &Case<'_>, calls: u32) -> Result<(), Fail> {
    for call in 1..=calls {
        for error in [SpoolError::NoMem, SpoolError::Failed] {
            let mut spool = case.before.copy(alloc)?;
            spool.failing = Some(Failing {
                call,
                error,
                left: 0,
            });
            breaks(alloc, case, &mut spool, None, of_spool(error))?;
            goes_on(alloc, case, &mut spool)?;
        }
    }
    Ok(())
}

/// Lets each call on the watched folders fail, with each error.
fn watched_fail(alloc: Global, case: &Case<'_>, calls: u32) -> Result<(), Fail> {
    for call in 1..=calls {
        for error in [WatchError::NoMem, WatchError::Failed, WatchError::TooSlow] {
            let mut spool = case.before.copy(alloc)?;
            let failing = Some((call, error));
            breaks(alloc, case, &mut spool, failing, of_watched(error))?;
            goes_on(alloc, case, &mut spool)?;
        }
    }
    Ok(())
}

/// Does the step of a case with the last call on the spool failing, and so many bytes of what it
/// appends there. Returns the spool.
fn broken(alloc: Global, case: &Case<'_>, call: u32, left: usize) -> Result<MemorySpool, Fail> {
    let error = SpoolError::Failed;
    let mut spool = case.before.copy(alloc)?;
    spool.failing = Some(Failing { call, error, left });
    breaks(alloc, case, &mut spool, None, of_spool(error))?;
    Ok(spool)
}

/// Lets the last call on the spool leave each front of what it appends, which has so many bytes. If
/// all is there, the record is, and its step done again adds a record alone.
fn fronts_are_left(alloc: Global, case: &Case<'_>, call: u32, length: usize) -> Result<(), Fail> {
    for left in 0..length {
        let mut spool = broken(alloc, case, call, left)?;
        if whole_of(alloc, &spool)? != whole_of(alloc, case.before)? {
            return fail("a part of an observation is read");
        }
        goes_on(alloc, case, &mut spool)?;
    }
    let mut spool = broken(alloc, case, call, length)?;
    if !spool.is_same(case.after) {
        return fail("not all was left");
    }
    let mut watched = MemoryWatched::of(alloc, case.world)?;
    act(alloc, &mut spool, &mut watched, case.what)??;
    let again = utf8(new_lines(alloc, case.after, &spool)?)?;
    if !again.starts_with("record\t") || !again.ends_with('\n') {
        return fail("not a record alone");
    }
    Ok(())
}

/// Does steps with a new spool, and then the last one with each call failing in turn. Returns how
/// many calls it has on the spool and on the watched folders, and how many bytes it appends to the
/// file `lines`.
pub fn survived(alloc: Global, steps: &[String]) -> Result<String, Fail> {
    let [steps @ .., last] = steps else {
        return fail("no steps");
    };
    let mut before = MemorySpool::new(alloc);
    for step in steps {
        go(alloc, &mut before, step)?;
    }
    let (what, world) = step_of(last);
    let mut after = before.copy(alloc)?;
    let mut watched = MemoryWatched::of(alloc, world)?;
    act(alloc, &mut after, &mut watched, what)??;
    let calls = after.calls.get();
    let length = new_lines(alloc, &before, &after)?.len();
    let case = Case {
        what,
        world,
        before: &before,
        after: &after,
    };
    spool_fails(alloc, &case, calls)?;
    watched_fail(alloc, &case, watched.calls)?;
    if what != "start" && what != "list" {
        fronts_are_left(alloc, &case, calls, length)?;
    }
    Ok(format!(in alloc;
        "{calls} calls on the spool, {} on the folders, {length} bytes",
        watched.calls
    )?)
}
