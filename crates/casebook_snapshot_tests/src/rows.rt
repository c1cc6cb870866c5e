//! The call that each row names, and the test that makes these calls.
use crate::calls::{again, nested, placed, read, snapshot};
use crate::documents::{AGAIN, READ, REFUSED};
use crate::scripts::{REFUSED_TABLES, SCRIPTS, tables};
use crate::tables::{KEPT, LARGE, PLACED, SKIPPED};
use retro_rows::{fail, rows};
use std::alloc::Global;
use std::test::Fail;

/// Returns the result of a call for these fields, as text.
fn called(alloc: Global, call: &str, given: &[String]) -> Result<String, Fail> {
    match (call, given) {
        ("snapshot", [folder, skip]) => snapshot(alloc, folder, skip),
        ("placed", [folder, at, skip]) => placed(alloc, folder, at, skip),
        ("read", [text]) => read(alloc, text),
        ("again", [folder, at]) => again(alloc, folder, at),
        ("tables", [tree, sessions, lines]) => tables(alloc, tree, sessions, lines),
        ("deep", [count]) => nested(alloc, count, true),
        ("wide", [count]) => nested(alloc, count, false),
        _ => fail("no such call"),
    }
}

/// Makes the calls of a table. Fails with the first row whose call returns something else than it
/// wants.
fn hold(alloc: Global, table: &str) -> Result<(), Fail> {
    for row in &rows(alloc, table)? {
        let returned = called(alloc, &row.call, &row.given)?;
        row.compare(alloc, &returned)?;
    }
    Ok(())
}

#[test]
fn rows_hold(rt: HostRuntime) -> Result<(), Fail> {
    for table in [KEPT, SKIPPED, PLACED, LARGE, READ, AGAIN, REFUSED] {
        hold(rt.alloc(), table)?;
    }
    Ok(())
}

#[test]
fn script_rows_hold(rt: HostRuntime) -> Result<(), Fail> {
    for table in [SCRIPTS, REFUSED_TABLES] {
        hold(rt.alloc(), table)?;
    }
    Ok(())
}
