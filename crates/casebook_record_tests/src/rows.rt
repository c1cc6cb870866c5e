//! The call that each row names, and the tests that make these calls.
use crate::calls::{bytes, first, more, read, with};
use crate::tables::{BEGIN, END, EXIT, RECORDS, START, WHOLE};
use casebook_record::{Field, RecordError, written_fields_are_read_back};
use retro_rows::{fail, rows};
use std::alloc::Global;
use std::test::Fail;

/// Returns the result of a call for these fields, as text.
fn called(alloc: Global, call: &str, given: &[String]) -> Result<String, Fail> {
    match (call, given) {
        ("read", fields) => read(alloc, fields),
        ("with", [fields @ .., place, new]) => with(alloc, fields, place, new),
        ("first", [fields @ .., count]) => first(alloc, fields, count),
        ("more", [fields @ .., last]) => more(alloc, fields, last),
        ("bytes", [digits]) => bytes(alloc, digits),
        _ => fail("no such call"),
    }
}

/// Makes the calls of a table. Fails with the first row whose call returns something else than it
/// wants.
fn hold(alloc: Global, table: &str) -> Result<(), Fail> {
    for row in &rows(alloc, table)? {
        let returned = called(alloc, &row.call, &row.given)?;
        row.compare(alloc, &returned)?;
    }
    Ok(())
}

#[test]
fn rows_hold(rt: HostRuntime) -> Result<(), Fail> {
    for table in [RECORDS, START, BEGIN, END, EXIT, WHOLE] {
        hold(rt.alloc(), table)?;
    }
    Ok(())
}

#[test]
fn errors_are_said(rt: HostRuntime) -> Result<(), Fail> {
    let alloc = rt.alloc();
    let wrong = format!(in alloc; "{}", RecordError::Wrong(Field::Umask))?;
    if wrong.as_str() != "not a record's field: umask" {
        return fail("another text of an error");
    }
    written_fields_are_read_back();
    Ok(())
}
