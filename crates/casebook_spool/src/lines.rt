//! Reads the file `lines`.
ghost use Rattle.std.specs.Prelude.{◌≡◌, ◌≤◌, IfOk, length, map};
ghost use Rattle.casebook_rows.specs.Rows.{fields_of};
ghost use Rattle.casebook_spool.specs.Lines.{front, is_record, item_or, items_of};
ghost use Rattle.casebook_spool.specs.Lines.{lines_of, rows_length, up_to_record};
ghost use Rattle.casebook_spool.specs.Reading.{item_of};
ghost use Rattle.casebook_spool.specs.declared.lines.LinesError.TheVariants as errors;
ghost use Rattle.casebook_spool.specs.Reads.{ReadsLines};
ghost use Rattle.casebook_spool.specs.inner.Faults.{ReadsItems};

use crate::NoMem;
use crate::item::Item;
use crate::reading::item_of;
use crate::row_fault::RowFault;
use casebook_rows::{fields_of, rows_of};
use std::alloc::{AllocFailed, Global};
use std::marker::Model;
use thiserror::Error;

/// What the file `lines` says.
#[derive(Drop)]
pub struct Lines {
    items: Vec<Item>,
    whole: usize,
}

impl Model for Lines {
    ghost use Rattle.casebook_spool.specs.Said.{LinesValue};

    ghost Value = { LinesValue };

    ghost view = { λ a. record { said = a.items.items; whole = a.whole } };
}

impl Lines {
    /// Returns the items, up to the last record.
    pub fn items(&self) -> &[Item]
        ensures { result.now ≡ self.now.said }
    {
        self.items.as_slice()
    }

    /// Returns how many bytes the rows of the items have. What follows was cut off.
    pub fn whole(&self) -> usize
        ensures { result ≡ self.now.whole }
    {
        self.whole
    }
}

/// Why the file `lines` isn't read.
#[derive(Clone, Copy, Debug, Drop, PartialEq, Eq, Error)]
pub enum LinesError {
    /// Allocation failed.
    #[error("out of memory")]
    NoMem,
    /// This row, counted from 1, is neither a note nor a record.
    #[error("row {0} is neither a note nor a record")]
    Row(usize),
}

impl From<NoMem> for LinesError {
    ghost from_gives = { λ _ error. error ≡ errors.NoMem };

    fn from(_error: NoMem) -> LinesError {
        LinesError::NoMem
    }
}

impl<T: Drop> From<AllocFailed<T>> for LinesError {
    ghost from_gives = { λ _ error. error ≡ errors.NoMem };

    fn from(_error: AllocFailed<T>) -> LinesError {
        LinesError::NoMem
    }
}

/// Reads a row, which has this number.
fn item_at(alloc: Global, row: &[u8], number: usize) -> Result<Item, LinesError>
    ensures { ReadsLines result (item_or number (item_of (fields_of row.now))) }
{
    let fields = fields_of(alloc, row)?;
    match item_of(alloc, fields.as_slice()) {
        Ok(item) => Ok(item),
        Err(RowFault::NoMem) => Err(LinesError::NoMem),
        Err(RowFault::Wrong) => Err(LinesError::Row(number)),
    }
}

/// Reads rows.
fn items_of(alloc: Global, rows: &[&[u8]]) -> Result<Vec<Item>, LinesError>
    ensures { ReadsItems result (items_of 1 (map (λ row. row.now) rows.now)) }
{
    let mut items = Vec::new(alloc);
    for row in rows {
        let item = item_at(alloc, row, items.len() + 1)?;
        items.push(item)?;
    }
    Ok(items)
}

/// Returns whether an item is a record.
fn is_record(item: &Item) -> bool
    ensures { result ≡ is_record item.now }
{
    match item {
        Item::Note(_) => false,
        Item::Record(_) => true,
    }
}

/// Returns how many items there are up to the last record.
fn up_to_record(items: &[Item]) -> usize
    ensures { result ≡ up_to_record items.now }
{
    let mut kept = 0;
    for (index, item) in items.iter().enumerate() {
        if is_record(item) {
            kept = index + 1;
        }
    }
    kept
}

/// Returns the length of rows, with a newline after each, which is `most` at most.
fn rows_length(rows: &[&[u8]], most: usize) -> usize
    requires { rows_length (map (λ row. row.now) rows.now) ≤ most }
    ensures { result ≡ rows_length (map (λ row. row.now) rows.now) }
{
    let mut length = 0;
    for row in rows {
        length += row.len() + 1;
    }
    length
}

/// Returns all rows but the last, which is empty or was cut off.
pub(crate) fn front<'r, 't>(rows: &'r [&'t [u8]]) -> &'r [&'t [u8]]
    ensures { map (λ row. row.now) result.now ≡ front (map (λ row. row.now) rows.now) }
{
    match rows {
        [rows @ .., _cut_off] => rows,
        [] => rows,
    }
}

/// Reads the file `lines`, or its end from a row on.
pub fn read_lines(alloc: Global, text: &[u8]) -> Result<Lines, LinesError>
    ensures value { ReadsLines result (lines_of text.now) }
    ensures within { IfOk result (λ lines. lines.whole ≤ length text.now) }
{
    let rows = rows_of(alloc, text)?;
    let rows = front(rows.as_slice());
    let mut items = items_of(alloc, rows)?;
    let kept = up_to_record(items.as_slice());
    let whole = rows_length(&rows[..kept], text.len());
    items.truncate(kept);
    Ok(Lines { items, whole })
}
