//! The call that each row names, and the test that makes these calls.
use crate::account_tables::ACCOUNTS;
use crate::accounts::{account, repaired, shown};
use crate::calls::{after, first, told};
use crate::case_tables::{CASES, LOGS, READINGS};
use crate::cases::{case, log, logged, read};
use crate::tables::{LINES, NODES, SESSIONS};
use retro_rows::{fail, rows};
use std::alloc::Global;
use std::test::Fail;

/// Returns the result of a call for these fields, as text.
fn called(alloc: Global, call: &str, given: &[String]) -> Result<String, Fail> {
    match (call, given) {
        ("first", [look, history, of]) => first(alloc, look, history, of),
        ("after", [look, history, of]) => after(alloc, look, history, of),
        ("told", [look, history]) => told(alloc, look, history),
        ("case", [look, history]) => case(alloc, look, history),
        ("read", [document]) => read(alloc, document),
        ("log", [look, history]) => log(alloc, look, history),
        ("account", [look, history]) => account(alloc, look, history),
        ("shown", [look, history]) => shown(alloc, look, history),
        ("repaired", [look, history, edits]) => repaired(alloc, look, history, edits),
        ("logged", [document]) => logged(alloc, document.as_bytes()),
        _ => fail("no such call"),
    }
}

/// Makes the calls of a table. Fails with the first row whose call returns something else than it
/// wants.
fn hold(alloc: Global, table: &str) -> Result<(), Fail> {
    for row in &rows(alloc, table)? {
        let returned = called(alloc, &row.call, &row.given)?;
        row.compare(alloc, &returned)?;
    }
    Ok(())
}

#[test]
fn rows_hold(rt: HostRuntime) -> Result<(), Fail> {
    for table in [NODES, SESSIONS, LINES, CASES, READINGS, LOGS, ACCOUNTS] {
        hold(rt.alloc(), table)?;
    }
    Ok(())
}
