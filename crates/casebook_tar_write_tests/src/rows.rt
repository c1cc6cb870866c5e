//! The call that each row names, and the test that makes these calls.
use crate::calls::{after_header, same, unpacked};
use crate::tables::{PLAIN, RECORDS, UNPACKED};
use retro_rows::{fail, rows};
use std::alloc::Global;
use std::test::Fail;

/// Returns the result of a call for these fields, as text.
fn called(alloc: Global, call: &str, given: &[String]) -> Result<String, Fail> {
    match (call, given) {
        ("same", [nodes, parts]) => same(alloc, nodes, parts),
        ("after_header", [nodes, parts]) => after_header(alloc, nodes, parts),
        ("unpacked", [nodes]) => unpacked(alloc, nodes),
        _ => fail("no such call"),
    }
}

/// Makes the calls of a table. Fails with the first row whose call returns something else than it
/// wants.
fn hold(alloc: Global, table: &str) -> Result<(), Fail> {
    for row in &rows(alloc, table)? {
        let returned = called(alloc, &row.call, &row.given)?;
        row.compare(alloc, &returned)?;
    }
    Ok(())
}

#[test]
fn rows_hold(rt: HostRuntime) -> Result<(), Fail> {
    for table in [PLAIN, RECORDS, UNPACKED] {
        hold(rt.alloc(), table)?;
    }
    Ok(())
}
