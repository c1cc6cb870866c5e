//! The recording and the ground of the tests.
use retro_history::History;
use retro_keep::{Edit, Recording, Script, keep_alone};
use retro_log::read_script;
use retro_pool::{Job, make_jobs};
use retro_redo::{Ground, Quiet, Repairer};
use retro_rows::{fail, script_of};
use std::alloc::Global;
use std::test::Fail;

/// Lines of which all but the first read what the first wrote.
pub const LINES: &str = concat!(
    "2 echo p > /tmp/k;;1 cat /tmp/k > a;;1 cat a /tmp/k;;1 cat /tmp/k;;",
    "1 grep -F p /tmp/k"
);

/// Reads the script of a document. Fails if the document is refused.
fn script(alloc: Global, document: &str) -> Result<Script, Fail> {
    match read_script(alloc, document.as_bytes()) {
        Ok(script) => Ok(script),
        Err(_) => fail("refused"),
    }
}

/// Returns the recording of the script that `script_of` writes for these lines.
pub fn recording_of(alloc: Global, lines: &str) -> Result<Recording, Fail> {
    let document = script_of(alloc, "", lines)?;
    Ok(keep_alone(alloc, &script(alloc, &document)?)?)
}

/// Settles the first line of a repair.
pub fn settle_first(alloc: Global, repairer: &mut Repairer<'_, '_, '_>) -> Result<(), Fail> {
    match repairer.next_line() {
        Some(line) => {
            repairer.settle(alloc, line, None, &Quiet)?;
            Ok(())
        }
        None => fail("no line"),
    }
}

/// Returns the jobs among the lines with the numbers 1 to 6, by a ground.
pub fn jobs_on(alloc: Global, ground: &Ground<'_, '_, '_>) -> Result<Vec<Job>, Fail> {
    let numbers: [u32; 6] = [1, 2, 3, 4, 5, 6];
    let jobs = make_jobs(alloc, ground, &numbers)?;
    Ok(jobs)
}

/// Returns the jobs among the lines of a recording, and among a number that no line has, once its
/// first line is settled as cancelled.
pub fn jobs_of(alloc: Global, lines: &str) -> Result<Vec<Job>, Fail> {
    let recording = recording_of(alloc, lines)?;
    let history = History::of(alloc, &recording)?;
    let edits: [Edit; 1] = [Edit::Cancel(1)];
    let mut repairer = Repairer::new(alloc, &recording, &history, &edits)?;
    settle_first(alloc, &mut repairer)?;
    jobs_on(alloc, &repairer.ground())
}
