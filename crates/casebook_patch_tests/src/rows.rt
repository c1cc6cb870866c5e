//! The call that each row names, and the test that makes these calls.
use crate::calls::{patch, unmade, unremoved};
use crate::tables::{DIRECTORIES, FILES, NAMES, TEXTS};
use retro_rows::{fail, rows};
use std::alloc::Global;
use std::test::Fail;

/// Returns the result of a call for these fields, as text.
fn called(alloc: Global, call: &str, given: &[String]) -> Result<String, Fail> {
    match (call, given) {
        ("patch", [before, after]) => patch(alloc, before, after),
        ("unmade", [before, after]) => unmade(alloc, before, after),
        ("unremoved", [before, after]) => unremoved(alloc, before, after),
        _ => fail("no such call"),
    }
}

#[test]
fn rows_hold(rt: HostRuntime) -> Result<(), Fail> {
    let alloc = rt.alloc();
    for table in [TEXTS, FILES, NAMES, DIRECTORIES] {
        for row in &rows(alloc, table)? {
            let returned = called(alloc, &row.call, &row.given)?;
            row.compare(alloc, &returned)?;
        }
    }
    Ok(())
}
