//! The call that each row names, and the test that makes these calls.
use crate::tables::{NAMES, OPTIONS};
use casebook_shell::ShellRules;
use retro_rows::{fail, rows};
use std::alloc::Global;
use std::test::Fail;

/// Returns what a shell with rules makes of a line, as a text.
fn meaning(alloc: Global, rules: &ShellRules, line: &str) -> Result<&'static str, Fail> {
    Ok(if rules.leave(alloc, line.as_bytes())? {
        "itself"
    } else {
        "something else"
    })
}

/// Returns the result of a call for these fields, as text.
fn called(alloc: Global, call: &str, given: &[String]) -> Result<&'static str, Fail> {
    match (call, given) {
        ("means", [shell, line]) => {
            let rules = ShellRules::of(alloc, shell.as_bytes())?;
            meaning(alloc, &rules, line)
        }
        ("means_with", [shell, name, line]) => {
            let mut rules = ShellRules::of(alloc, shell.as_bytes())?;
            rules.add_name(name.as_bytes())?;
            meaning(alloc, &rules, line)
        }
        _ => fail("no such call"),
    }
}

#[test]
fn rows_hold(rt: HostRuntime) -> Result<(), Fail> {
    let alloc = rt.alloc();
    for table in [NAMES, OPTIONS] {
        for row in &rows(alloc, table)? {
            let returned = called(alloc, &row.call, &row.given)?;
            row.compare(alloc, returned)?;
        }
    }
    Ok(())
}
