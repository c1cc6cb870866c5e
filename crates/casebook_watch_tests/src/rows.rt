//! The call that each row names, and the test that makes these calls.
use crate::calls::{delta, seen};
use crate::tables::{DELTAS, LOOKS};
use retro_rows::{fail, rows};
use std::alloc::Global;
use std::test::Fail;

/// Returns the result of a call for these fields, as text.
fn called(alloc: Global, call: &str, given: &[String]) -> Result<String, Fail> {
    match (call, given) {
        ("seen", [before, after]) => seen(alloc, before, after),
        ("delta", [before, after]) => delta(alloc, before, after),
        _ => fail("no such call"),
    }
}

/// Makes the calls of a table. Fails with the first row whose call returns something else than it
/// wants.
fn hold(alloc: Global, table: &str) -> Result<(), Fail> {
    for row in &rows(alloc, table)? {
        let returned = called(alloc, &row.call, &row.given)?;
        row.compare(alloc, &returned)?;
    }
    Ok(())
}

#[test]
fn rows_hold(rt: HostRuntime) -> Result<(), Fail> {
    for table in [LOOKS, DELTAS] {
        hold(rt.alloc(), table)?;
    }
    Ok(())
}
