//! The call that each row names, and the test that makes these calls.
use crate::explaining::{explained, made, shelf_text};
use crate::tables::{EXPLAINED, SHELVES};
use crate::telling::{around, recorded, told};
use crate::told_tables::{REFUSED, TOLD};
use casebook_explain::Noting;
use retro_rows::{fail, rows};
use std::alloc::Global;
use std::test::Fail;

/// Returns the result of a call for a state and lines that were seen from there on, as text.
fn called_of_lines(alloc: Global, call: &str, given: &[String]) -> Result<String, Fail> {
    match (call, given.split_first()) {
        ("told", Some((state, lines))) => told(alloc, state, lines),
        ("recorded", Some((state, lines))) => { recorded(alloc, Noting::WithNeeds, state, lines) }
        ("logged", Some((state, lines))) => recorded(alloc, Noting::RunsAlone, state, lines),
        ("around", Some((state, more))) => around(alloc, state, more),
        _ => fail("no such call"),
    }
}

/// Returns the result of a call for these fields, as text.
fn called(alloc: Global, call: &str, given: &[String]) -> Result<String, Fail> {
    match (call, given) {
        ("explain", [state, typed, effect]) => explained(alloc, state, typed, effect),
        ("shelf", [state, effect]) => shelf_text(alloc, state, effect),
        ("made", [state, effect, cell]) => made(alloc, state, effect, cell),
        _ => called_of_lines(alloc, call, given),
    }
}

/// Makes the calls of a table. Fails with the first row whose call returns something else than it
/// wants.
fn hold(alloc: Global, table: &str) -> Result<(), Fail> {
    for row in &rows(alloc, table)? {
        let returned = called(alloc, &row.call, &row.given)?;
        row.compare(alloc, &returned)?;
    }
    Ok(())
}

#[test]
fn rows_hold(rt: HostRuntime) -> Result<(), Fail> {
    for table in [EXPLAINED, SHELVES, TOLD, REFUSED] {
        hold(rt.alloc(), table)?;
    }
    Ok(())
}
