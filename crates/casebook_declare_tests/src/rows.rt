//! The call that each row names, and the tests that make these calls.
use crate::calls::{bytes, rows as rows_said};
use crate::tables::{ATTRIBUTES, OTHERS, VALUES};
use casebook_declare::{DeclareError, printed_variables_are_read_back};
use retro_rows::{fail, rows};
use std::alloc::Global;
use std::test::Fail;

/// Returns the result of a call for these fields, as text.
fn called(alloc: Global, call: &str, given: &[String]) -> Result<String, Fail> {
    match (call, given) {
        ("rows", given) => rows_said(alloc, given),
        ("bytes", [digits]) => bytes(alloc, digits),
        _ => fail("no such call"),
    }
}

#[test]
fn rows_hold(rt: HostRuntime) -> Result<(), Fail> {
    let alloc = rt.alloc();
    for table in [VALUES, ATTRIBUTES, OTHERS] {
        for row in &rows(alloc, table)? {
            let returned = called(alloc, &row.call, &row.given)?;
            row.compare(alloc, &returned)?;
        }
    }
    Ok(())
}

#[test]
fn errors_are_said(rt: HostRuntime) -> Result<(), Fail> {
    let alloc = rt.alloc();
    let said = format!(in alloc; "{}", DeclareError::NotPrinted(3))?;
    if said.as_str() != "row 3 isn't as `declare -p` prints it" {
        return fail("another text of an error");
    }
    printed_variables_are_read_back();
    Ok(())
}
