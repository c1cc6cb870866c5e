//! The call that each row about a history names, and the tests that make these calls.
use crate::history_tables::{GROWING, INCIDENTS, LIMITED, SCANNED};
use crate::queries::answer;
use crate::recordings::recording;
use crate::scans::first_difference;
use retro_history::History;
use retro_keep::Recording;
use retro_rows::{Row, fail, rows};
use std::alloc::Global;
use std::test::Fail;

/// Returns the result of a call over a recording, as text.
fn called(
    alloc: Global,
    recording: &Recording,
    call: &str,
    given: &[String],
) -> Result<String, Fail> {
    let history = History::of(alloc, recording)?;
    match (call, given) {
        ("scanned", [last]) => first_difference(alloc, &history, last.parse()?),
        _ => answer(alloc, &history, call, given),
    }
}

/// Returns the result of a row's call over the recording of its entries and lines.
fn returned(alloc: Global, row: &Row) -> Result<String, Fail> {
    let [entries, lines, fields @ ..] = row.given.as_slice() else {
        return fail("no lines");
    };
    let recording = recording(alloc, entries, lines)?;
    called(alloc, &recording, &row.call, fields)
}

/// Makes the calls of a table. Fails with the first row whose call returns something else than it
/// wants.
fn hold(alloc: Global, table: &str) -> Result<(), Fail> {
    for row in &rows(alloc, table)? {
        let returned = returned(alloc, row)?;
        row.compare(alloc, &returned)?;
    }
    Ok(())
}

#[test]
fn histories_are_as_worked_out(rt: HostRuntime) -> Result<(), Fail> {
    for table in [GROWING, LIMITED, INCIDENTS] {
        hold(rt.alloc(), table)?;
    }
    Ok(())
}

#[test]
fn histories_are_scans(rt: HostRuntime) -> Result<(), Fail> {
    hold(rt.alloc(), SCANNED)
}
