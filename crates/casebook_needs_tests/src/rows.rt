//! The call that each row names, and the test that makes these calls.
use crate::calls::{from, needs, paths, variables, words};
use crate::tables::{NEEDS, RULES, WORDS};
use retro_rows::{fail, rows};
use std::alloc::Global;
use std::test::Fail;

/// Returns the result of a call for these fields, as text.
fn called(alloc: Global, call: &str, given: &[String]) -> Result<String, Fail> {
    match (call, given) {
        ("words", [line]) => words(alloc, line),
        ("paths", [directory, home, line]) => paths(alloc, directory, home, line),
        ("variables", [line]) => variables(alloc, line),
        ("needs", [line, before, did]) => needs(alloc, line, before, did),
        ("from", [line, before, did, source]) => from(alloc, source, line, before, did),
        _ => fail("no such call"),
    }
}

/// Makes the calls of a table. Fails with the first row whose call returns something else than it
/// wants.
fn hold(alloc: Global, table: &str) -> Result<(), Fail> {
    for row in &rows(alloc, table)? {
        let returned = called(alloc, &row.call, &row.given)?;
        row.compare(alloc, &returned)?;
    }
    Ok(())
}

#[test]
fn rows_hold(rt: HostRuntime) -> Result<(), Fail> {
    for table in [WORDS, RULES, NEEDS] {
        hold(rt.alloc(), table)?;
    }
    Ok(())
}
