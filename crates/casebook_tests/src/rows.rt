//! The call that each row names, and the test that makes these calls.
use crate::diffs::compared;
use crate::document_tables::{ABOUTS, PLACES};
use crate::documents::{about, log, log_of_bytes, script};
use crate::profile::understood;
use crate::profile_table::UNDERSTOOD;
use crate::tables::{DIFFS, LINES, LISTS, SHOWN};
use crate::texts::{fields, line, lines, list_of, listed, shown, widths};
use crate::word_tables::{DIFFERENCES, FILES, LABELS, NOTES};
use crate::words::{difference, files, first, label, merged, note};
use casebook_text::{Breaks, escape, list_of_file};
use retro_rows::{rows, text};
use std::alloc::{AllocError, Global};
use std::test::Fail;

/// Returns the result of a call on texts alone, as text.
fn text_called(alloc: Global, call: &str, given: &[String]) -> Result<String, AllocError> {
    match (call, given) {
        ("escaped", [given]) => escape(alloc, given),
        ("lines", [given]) => lines(alloc, given),
        ("fields", rows) => fields(alloc, rows),
        ("list", [list]) => listed(alloc, list),
        ("file", [given]) => list_of_file(alloc, given),
        ("diff" | "hunks", [old, new]) => compared(alloc, call, old, new),
        ("script", [given]) => script(alloc, given.as_bytes()),
        ("log", [given]) => log(alloc, given.as_bytes()),
        ("merged", [old, new]) => merged(alloc, old, new),
        ("first", [given]) => first(alloc, given),
        _ => text(alloc, "no such call"),
    }
}

/// Returns the result of a call for these fields, as text.
fn called(alloc: Global, call: &str, given: &[String]) -> Result<String, Fail> {
    match (call, given) {
        ("shown", [digits]) => shown(alloc, digits, Breaks::Show),
        ("kept", [digits]) => shown(alloc, digits, Breaks::Keep),
        ("word", [digits]) => shown(alloc, digits, Breaks::Words),
        ("line", [digits]) => line(alloc, digits),
        ("widths", [digits]) => widths(alloc, digits),
        ("numbers", [numbers]) => list_of(alloc, numbers),
        ("about", [text]) => about(alloc, text),
        ("bytes", [digits]) => log_of_bytes(alloc, digits),
        ("understood", [line]) => understood(alloc, line),
        ("difference", [query, old, new]) => difference(alloc, query, old, new),
        ("note", [what, value]) => note(alloc, what, value),
        ("files", [old, new]) => files(alloc, old, new),
        ("name" | "time", [names, times, of]) => label(alloc, call, names, times, of),
        _ => Ok(text_called(alloc, call, given)?),
    }
}

/// Makes the calls of a table. Fails with the first row whose call returns something else than it
/// wants.
fn hold(alloc: Global, table: &str) -> Result<(), Fail> {
    for row in &rows(alloc, table)? {
        let returned = called(alloc, &row.call, &row.given)?;
        row.compare(alloc, &returned)?;
    }
    Ok(())
}

#[test]
fn rows_hold(rt: HostRuntime) -> Result<(), Fail> {
    for table in [SHOWN, LINES, LISTS, DIFFS, ABOUTS, PLACES] {
        hold(rt.alloc(), table)?;
    }
    for table in [UNDERSTOOD, DIFFERENCES, NOTES, FILES, LABELS] {
        hold(rt.alloc(), table)?;
    }
    Ok(())
}
