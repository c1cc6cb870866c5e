//! Repairs in rounds: their refusals, their tallies, and which lines they execute.
use crate::edits::edits;
use crate::telling::fault_text;
use crate::watch::Watch;
use retro_keep::Recording;
use retro_log::check;
use retro_redo::{Quiet, Repair, RepairFault, Tally};
use retro_rounds::repair;
use retro_rows::{fail, numbers};
use retro_tree::NoMem;
use std::alloc::{AllocGlobal, Global};
use std::test::Fail;
use std::thread::Threads;

/// How a repair in rounds is asked for.
#[derive(Drop)]
pub struct Ask<'a> {
    /// The edits.
    pub edits: &'a str,
    /// Numbers of workers.
    pub workers: &'a str,
    /// The numbers of lines of the pieces.
    pub cuts: &'a str,
}

/// Returns the counts as a text.
pub fn tally_text(alloc: Global, tally: &Tally) -> Result<String, NoMem> {
    let Tally {
        jobs,
        taken_up,
        unused,
        wrong,
        given_up,
    } = tally;
    format!(in alloc;
        "{jobs} jobs: {taken_up} taken up, {unused} unused, {wrong} wrong, {given_up} given up"
    )
}

/// Returns the numbers of a list, which may be empty.
fn list(alloc: Global, text: &str) -> Result<Vec<u32>, Fail> {
    if text.is_empty() {
        return Ok(Vec::new(alloc));
    }
    numbers(alloc, text)
}

/// Returns the tally of a repair in rounds and which lines it executes, each with its turn, or its
/// refusal.
fn rounds_with<T: Threads + Sync + AllocGlobal>(
    rt: &T,
    recording: &Recording,
    ask: &Ask<'_>,
    workers: usize,
) -> Result<String, Fail> {
    let alloc = rt.alloc();
    let edits = edits(alloc, ask.edits)?;
    let cuts = list(alloc, ask.cuts)?;
    let watch = Watch::new(alloc, 9)?;
    match repair(rt, alloc, recording, &edits, workers, &cuts, &watch) {
        Ok(repair) => {
            let counts = tally_text(alloc, &repair.tally)?;
            let executed = watch.executions(alloc)?;
            Ok(format!(in alloc; "{counts}, {executed}")?)
        }
        Err(fault) => Ok(fault_text(alloc, fault)?),
    }
}

/// Returns the tally of a repair in rounds and which lines it executes, each with its turn, or its
/// refusal. Fails if it isn't the same with each number of workers.
pub fn rounds<T: Threads + Sync + AllocGlobal>(
    rt: &T,
    recording: &Recording,
    ask: &Ask<'_>,
) -> Result<String, Fail> {
    let mut told = None;
    for workers in numbers(rt.alloc(), ask.workers)? {
        let now = rounds_with(rt, recording, ask, workers as usize)?;
        match &told {
            None => told = Some(now),
            Some(before) if *before != now => return fail("another answer with more workers"),
            Some(_) => {}
        }
    }
    match told {
        Some(told) => Ok(told),
        None => fail("no workers"),
    }
}

/// Returns a repair in rounds with one number of workers. Fails if the repair is refused,
/// or if `check` refuses the repair's own recording.
pub fn repaired_in_rounds<T: Threads + Sync + AllocGlobal>(
    rt: &T,
    recording: &Recording,
    ask: &Ask<'_>,
) -> Result<Repair, Fail> {
    let alloc = rt.alloc();
    let edits = edits(alloc, ask.edits)?;
    let cuts = list(alloc, ask.cuts)?;
    let workers = ask.workers.parse()?;
    let Ok(repair) = repair(rt, alloc, recording, &edits, workers, &cuts, &Quiet) else {
        return fail("refused in rounds");
    };
    if check(alloc, &repair.recording)? {
        Ok(repair)
    } else {
        fail("no recording in rounds")
    }
}
