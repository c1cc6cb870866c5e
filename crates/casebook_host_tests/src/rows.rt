//! The call that each row names, and the test that makes these calls.
use crate::calls::{logged_in, unseen_folders};
use crate::tables::{LOGINS, MACHINE, MOUNTS};
use retro_rows::{fail, rows};
use std::alloc::Global;
use std::test::Fail;

/// Returns the result of a call for these fields, as text.
fn called(alloc: Global, call: &str, given: &[String]) -> Result<String, Fail> {
    match (call, given) {
        ("unseen", [table, folders @ ..]) => unseen_folders(alloc, table, folders),
        ("logins", [who]) => logged_in(alloc, who),
        _ => fail("no such call"),
    }
}

#[test]
fn rows_hold(rt: HostRuntime) -> Result<(), Fail> {
    let alloc = rt.alloc();
    for table in [MACHINE, MOUNTS, LOGINS] {
        for row in &rows(alloc, table)? {
            let returned = called(alloc, &row.call, &row.given)?;
            row.compare(alloc, &returned)?;
        }
    }
    Ok(())
}
