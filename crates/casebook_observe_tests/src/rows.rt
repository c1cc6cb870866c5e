//! The call that each row names, and the tests that make these calls.
use crate::failing::survived;
use crate::failing_tables::FAILING;
use crate::field_tables::{FIELDS, PUSHED};
use crate::fields::{decoded, digest, fields, number, path_read, pushed, rows};
use crate::line_tables::{LINES, LISTINGS};
use crate::note_tables::{NOTES, RECORDS, SIGHTS};
use crate::reading::{cut, cut_listing, first, lines, listed, more, note, raw, with};
use crate::spool_tables::SPOOLS;
use crate::step_tables::{REFUSED, STEPS};
use crate::steps::{done, last};
use crate::writing::{after, listing, observation, sights};
use crate::writing_tables::{AFTER, WRITTEN};
use casebook_observe::{ObserveError, SpoolError, WatchError};
use casebook_record::RecordError;
use casebook_rows::{rows_are_read_back, texts_stay_in_rows, values_are_read_back};
use casebook_spool::{
    LinesError, lines_are_read_back, listings_are_read_back, notes_are_read_back,
};
use retro_rows::fail;
use std::alloc::Global;
use std::test::Fail;

/// Returns the result of a call on fields or on what reads rows, as text.
fn read(alloc: Global, call: &str, given: &[String]) -> Result<String, Fail> {
    match (call, given) {
        ("rows", [text]) => rows(alloc, text),
        ("fields", [row]) => fields(alloc, row),
        ("number", [field]) => number(alloc, field),
        ("text", [field]) => decoded(alloc, field),
        ("path", [field]) => path_read(alloc, field),
        ("digest", [field]) => digest(alloc, field),
        ("note", [row]) => note(alloc, row),
        ("raw", [row, digits]) => raw(alloc, row, digits),
        ("with", [row, place, new]) => with(alloc, row, place, new),
        ("first", [row, count]) => first(alloc, row, count),
        ("more", [row, last]) => more(alloc, row, last),
        ("lines", [text]) => lines(alloc, text),
        ("cut", [earlier, end]) => cut(alloc, earlier, end),
        ("listed", [text]) => listed(alloc, text),
        ("cutlisting", [text]) => cut_listing(alloc, text),
        _ => fail("no such call"),
    }
}

/// Returns the result of a call that writes something, as text.
fn called(alloc: Global, call: &str, given: &[String]) -> Result<String, Fail> {
    match (call, given) {
        ("push", [kind, value]) => pushed(alloc, kind, value),
        ("observation", [notes, record]) => observation(alloc, notes, record),
        ("listing", [at, notes]) => listing(alloc, at, notes),
        ("sights", [at, world]) => sights(alloc, at, world),
        ("after", [world, notes]) => after(alloc, world, notes),
        ("steps", steps) => done(alloc, steps),
        ("spool", [first, listing, lines]) => last(alloc, first, listing, lines),
        ("failing", steps) => survived(alloc, steps),
        _ => read(alloc, call, given),
    }
}

/// Makes the calls of a table. Fails with the first row whose call returns something else than it
/// wants.
fn hold(alloc: Global, table: &str) -> Result<(), Fail> {
    for row in &retro_rows::rows(alloc, table)? {
        let returned = called(alloc, &row.call, &row.given)?;
        row.compare(alloc, &returned)?;
    }
    Ok(())
}

#[test]
fn fields_are_read_and_written(rt: HostRuntime) -> Result<(), Fail> {
    for table in [FIELDS, PUSHED] {
        hold(rt.alloc(), table)?;
    }
    values_are_read_back();
    texts_stay_in_rows();
    rows_are_read_back();
    Ok(())
}

#[test]
fn notes_are_read_and_written(rt: HostRuntime) -> Result<(), Fail> {
    for table in [SIGHTS, NOTES, RECORDS, LINES, LISTINGS, WRITTEN, AFTER] {
        hold(rt.alloc(), table)?;
    }
    notes_are_read_back();
    lines_are_read_back();
    listings_are_read_back();
    Ok(())
}

#[test]
fn observations_are_taken(rt: HostRuntime) -> Result<(), Fail> {
    for table in [STEPS, REFUSED, SPOOLS] {
        hold(rt.alloc(), table)?;
    }
    Ok(())
}

#[test]
fn failures_lose_nothing(rt: HostRuntime) -> Result<(), Fail> {
    hold(rt.alloc(), FAILING)
}

/// Returns what errors say.
fn said(alloc: Global) -> Result<[(String, &'static str); 8], Fail> {
    Ok([
        (
            format!(in alloc; "{}", ObserveError::NoMem)?,
            "out of memory",
        ),
        (
            format!(in alloc; "{}", ObserveError::Record(RecordError::CutOff))?,
            "the record is cut off",
        ),
        (
            format!(in alloc; "{}", ObserveError::First)?,
            "the first look can't be read",
        ),
        (
            format!(in alloc; "{}", ObserveError::Lines(24, 3))?,
            "row 3 after byte 24 of the lines is damaged",
        ),
        (
            format!(in alloc; "{}", ObserveError::Watched(WatchError::Failed))?,
            "a watched folder can't be looked at",
        ),
        (
            format!(in alloc; "{}", ObserveError::Watched(WatchError::TooSlow))?,
            "the watched folders hold too much to be looked at in time",
        ),
        (
            format!(in alloc; "{}", ObserveError::Spool(SpoolError::Failed))?,
            "the spool can't be read or written",
        ),
        (
            format!(in alloc; "{}", LinesError::Row(3))?,
            "row 3 is neither a note nor a record",
        ),
    ])
}

#[test]
fn errors_are_said(rt: HostRuntime) -> Result<(), Fail> {
    for (text, wanted) in &said(rt.alloc())? {
        if text.as_str() != *wanted {
            return fail("another text of an error");
        }
    }
    Ok(())
}
