//! The call that each row names, and the test that makes these calls.
use crate::calls::{applied, kept, kept_backwards, planned, put, taken};
use crate::stops::stops;
use crate::tables::{APPLIED, KEPT, PLANS, PUTS, STOPS};
use crate::undo_calls::{read, read_bytes, written};
use crate::undo_tables::{READ, WRITTEN};
use retro_rows::{fail, rows};
use std::alloc::Global;
use std::test::Fail;

/// Returns the result of a call for these fields, as text.
fn called(alloc: Global, call: &str, given: &[String]) -> Result<String, Fail> {
    match (call, given) {
        ("plan", [old, new, folder]) => planned(alloc, old, new, folder),
        ("apply", [old, new, folder]) => applied(alloc, old, new, folder),
        ("stops", [old, new, folder]) => stops(alloc, old, new, folder),
        ("rows", [paths]) => taken(alloc, paths),
        ("backwards", [old, new, folder]) => kept_backwards(alloc, old, new, folder),
        ("put", [folder, at, before, after]) => put(alloc, folder, at, before, after),
        ("undo", [at, rows]) => written(alloc, at, rows),
        ("read", [text]) => read(alloc, text),
        ("bytes", [numbers]) => read_bytes(alloc, numbers),
        ("kept", [old, new, folder, old2, new2, folder2]) => {
            kept(alloc, [old, new, folder], [old2, new2, folder2])
        }
        _ => fail("no such call"),
    }
}

/// Makes the calls of a table. Fails with the first row whose call returns something else than it
/// wants.
fn hold(alloc: Global, table: &str) -> Result<(), Fail> {
    for row in &rows(alloc, table)? {
        let returned = called(alloc, &row.call, &row.given)?;
        row.compare(alloc, &returned)?;
    }
    Ok(())
}

#[test]
fn rows_hold(rt: HostRuntime) -> Result<(), Fail> {
    for table in [PLANS, APPLIED, STOPS, KEPT, PUTS, WRITTEN, READ] {
        hold(rt.alloc(), table)?;
    }
    Ok(())
}
