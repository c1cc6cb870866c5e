//! The rows of a table.
ghost use Rattle.std.specs.Prelude.{◌≡◌, ◌==◌, IfOk, map};
ghost use Rattle.std.specs.List.{slice_split};
ghost use Rattle.retro_path.specs.Ascii.{newline};
ghost use Rattle.casebook_script.specs.Reads.{Reads};
ghost use Rattle.casebook_script.specs.Rows.{is_skipped, rows_in, rows_of};
ghost use Rattle.casebook_script.specs.inner.RowReads.{row_view};

use crate::NoMem;
use crate::fault::{Table, TableFault};
use std::alloc::Global;
use std::str::from_utf8;

/// The byte that a row begins with that is skipped.
const HASH: u8 = b'#';

/// A row of a table.
#[derive(Drop)]
pub(crate) struct TableRow<'t> {
    /// Its place, where rows that are skipped count too. The first is 1.
    pub(crate) place: usize,
    /// Its text, without the newline.
    pub(crate) text: &'t str,
}

/// Returns whether a row is empty or begins with `#`.
fn is_skipped(row: &str) -> bool
    ensures { result ≡ is_skipped row.now }
{
    match row.as_bytes() {
        [] => true,
        [first, ..] => *first == HASH,
    }
}

/// Splits a text at its newlines. Returns the parts, empty ones too.
fn split_rows(alloc: Global, text: &str) -> Result<Vec<&str>, NoMem>
    ensures { IfOk result (λ rows.
        map (λ row. row.now) rows.items ≡ slice_split (λ b. b == newline) text.now) }
{
    text.split('\n').collect(alloc)
}

/// Returns the rows of a text that aren't skipped, each with its place.
fn rows_of<'t>(alloc: Global, text: &'t str) -> Result<Vec<TableRow<'t>>, NoMem>
    ensures { IfOk result (λ rows. map row_view rows.items ≡ rows_of text.now) }
{
    let parts = split_rows(alloc, text)?;
    let mut rows = Vec::new(alloc);
    for (index, part) in parts.iter().enumerate() {
        if !is_skipped(part) {
            rows.push(TableRow {
                place: index + 1,
                text: part,
            })?;
        }
    }
    Ok(rows)
}

/// Returns the rows of a table that aren't skipped, each with its place.
pub(crate) fn rows_in<'t>(
    alloc: Global,
    table: Table,
    bytes: &'t [u8],
) -> Result<Vec<TableRow<'t>>, TableFault>
    ensures { Reads (λ rows. map row_view rows.items) result (rows_in table bytes.now) }
{
    match from_utf8(bytes) {
        Ok(text) => Ok(rows_of(alloc, text)?),
        Err(_) => Err(TableFault::NotUtf8(table)),
    }
}
