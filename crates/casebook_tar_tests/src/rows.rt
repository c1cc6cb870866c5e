//! The call that each row names, and the test that makes these calls.
use crate::calls::{field, first, members, with};
use crate::tables::{FAULTS, LONG, PLAIN, RECORDS, SPARSE};
use crate::tree_calls::{list, look, tree};
use crate::tree_tables::{KEPT, LINKS, LISTED, REFUSED, SKIPPED, TWICE};
use retro_rows::{fail, rows};
use std::alloc::Global;
use std::test::Fail;

/// Returns the result of a call for these fields, as text.
fn called(alloc: Global, call: &str, given: &[String]) -> Result<String, Fail> {
    match (call, given) {
        ("members", [parts]) => members(alloc, parts),
        ("first", [parts, count]) => first(alloc, parts, count),
        ("with", [parts, at, new]) => with(alloc, parts, at, new),
        ("field", [parts, header, at, new]) => field(alloc, parts, header, at, new),
        ("tree", [parts]) => tree(alloc, parts),
        ("list", [parts, path]) => list(alloc, parts, path),
        ("look", [parts, path]) => look(alloc, parts, path),
        _ => fail("no such call"),
    }
}

/// Makes the calls of a table. Fails with the first row whose call returns something else than it
/// wants.
fn hold(alloc: Global, table: &str) -> Result<(), Fail> {
    for row in &rows(alloc, table)? {
        let returned = called(alloc, &row.call, &row.given)?;
        row.compare(alloc, &returned)?;
    }
    Ok(())
}

#[test]
fn rows_hold(rt: HostRuntime) -> Result<(), Fail> {
    for table in [PLAIN, LONG, SPARSE, RECORDS, FAULTS] {
        hold(rt.alloc(), table)?;
    }
    Ok(())
}

#[test]
fn tree_rows_hold(rt: HostRuntime) -> Result<(), Fail> {
    for table in [KEPT, TWICE, LINKS, SKIPPED, REFUSED, LISTED] {
        hold(rt.alloc(), table)?;
    }
    Ok(())
}
