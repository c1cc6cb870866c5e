//! The call that each row names, and the test that makes these calls.
use crate::command_table::COMMANDS;
use crate::lines::line;
use crate::list_table::LISTS;
use crate::run_table::RUNS;
use crate::runs::run;
use crate::tables::TEXTS;
use crate::texts::{
    bracket, condition, cut, echo, grep, grep_status, lines, request, usage, utility,
};
use crate::unsupported_table::UNSUPPORTED;
use crate::word_table::WORDS;
use retro_rows::{fail, rows};
use std::alloc::Global;
use std::test::Fail;

/// Returns the result of a call on texts alone, as text.
fn text_called(alloc: Global, call: &str, given: &[String]) -> Result<String, Fail> {
    let returned = match (call, given) {
        ("request", [flags, arguments, fields @ ..]) => request(alloc, flags, arguments, fields),
        ("textlines", [given]) => lines(alloc, given),
        ("cut", [given, fields @ ..]) => cut(alloc, given, fields),
        ("grep", [name, given, fields @ ..]) => grep(alloc, name, given, fields),
        ("grepstatus", [found, fault, fields @ ..]) => grep_status(alloc, found, fault, fields),
        ("condition", operands) => condition(alloc, operands),
        ("bracket", operands) => bracket(alloc, operands),
        ("echo", operands) => echo(alloc, operands),
        ("usage", [name]) => usage(alloc, name),
        ("utility", [name]) => utility(alloc, name),
        _ => return fail("no such call"),
    };
    Ok(returned?)
}

/// Returns the result of a call for these fields, as text.
fn called(alloc: Global, call: &str, given: &[String]) -> Result<String, Fail> {
    match (call, given) {
        ("run", [words, place, fields @ ..]) => run(alloc, words, place, fields),
        ("line", [words, given]) => line(alloc, words, given),
        _ => text_called(alloc, call, given),
    }
}

/// Makes the calls of a table. Fails with the first row whose call returns something else than it
/// wants.
fn hold(alloc: Global, table: &str) -> Result<(), Fail> {
    for row in &rows(alloc, table)? {
        let returned = called(alloc, &row.call, &row.given)?;
        row.compare(alloc, &returned)?;
    }
    Ok(())
}

#[test]
fn rows_hold(rt: HostRuntime) -> Result<(), Fail> {
    for table in [TEXTS, RUNS, WORDS, COMMANDS, LISTS, UNSUPPORTED] {
        hold(rt.alloc(), table)?;
    }
    Ok(())
}
