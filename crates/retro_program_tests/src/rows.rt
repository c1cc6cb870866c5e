//! The call that each row names, and the test that makes these calls.
use crate::documents::{edited, log, log_fronts, logged, note, script, script_part, written};
use crate::forged_table::FORGED_LOGS;
use crate::log_tables::{LOG_LINES, LOGS, NOTES};
use crate::programs::{run, run_in_turn, run_on_many, run_with_each, shell};
use crate::repair_tables::{OPTIONS, REPAIRS, REPLACED};
use crate::tables::{DOCUMENTS, PROGRAMS, SHELL};
use crate::trim_table::TRIMS;
use retro_rows::rows;
use retro_tree::NoMem;
use std::alloc::{AllocGlobal, Global};
use std::test::Fail;
use std::thread::Threads;

/// Returns the result of a call about documents alone, as text.
fn document_called(alloc: Global, call: &str, given: &[String]) -> Result<String, NoMem> {
    match (call, given) {
        ("script", [document]) => script(alloc, document),
        ("log", [document]) => log(alloc, document),
        ("log fronts", [document]) => log_fronts(alloc, document),
        ("logged", [lines]) => logged(alloc, lines),
        ("note", [given]) => note(alloc, given),
        (part, [value]) => script_part(alloc, part, value),
        _ => String::from_str(alloc, "no such call"),
    }
}

/// Returns the result of a call for these fields, as text.
fn called<T: Threads + Sync + AllocGlobal>(
    rt: &T,
    call: &str,
    given: &[String],
) -> Result<String, Fail> {
    match (call, given) {
        ("edited", [document, list]) => edited(rt.alloc(), document, list),
        ("written", [document]) => written(rt.alloc(), document),
        ("shell", [entries, lines @ ..]) => shell(rt, entries, lines),
        ("run", [words, input]) => run(rt, words, input),
        ("in turn", [words @ .., last, input]) => run_in_turn(rt, words, last, input),
        ("many", [words @ .., last, count, line]) => run_on_many(rt, words, last, (count, line)),
        ("with each", [words, further @ .., script]) => run_with_each(rt, words, further, script),
        _ => Ok(document_called(rt.alloc(), call, given)?),
    }
}

/// Makes the calls of a table. Fails with the first row whose call returns something else than it
/// wants.
fn hold<T: Threads + Sync + AllocGlobal>(rt: &T, table: &str) -> Result<(), Fail> {
    for row in &rows(rt.alloc(), table)? {
        let returned = called(rt, &row.call, &row.given)?;
        row.compare(rt.alloc(), &returned)?;
    }
    Ok(())
}

#[test]
fn rows_hold(rt: HostRuntime) -> Result<(), Fail> {
    for table in [SHELL, DOCUMENTS, PROGRAMS] {
        hold(&rt, table)?;
    }
    Ok(())
}

#[test]
fn rows_of_repairs_hold(rt: HostRuntime) -> Result<(), Fail> {
    for table in [REPAIRS, REPLACED, OPTIONS, TRIMS, FORGED_LOGS] {
        hold(&rt, table)?;
    }
    Ok(())
}

#[test]
fn rows_of_logs_hold(rt: HostRuntime) -> Result<(), Fail> {
    for table in [LOGS, LOG_LINES, NOTES] {
        hold(&rt, table)?;
    }
    Ok(())
}
