//! Reads undo files.
ghost use Rattle.std.specs.Prelude.{◌≡◌, codes, map, ok_or, option_and_then};
ghost use Rattle.serde_json.specs.Find.{get};
ghost use Rattle.serde_json.specs.View.{view};
ghost use Rattle.casebook_undo.specs.Cells.{cells_in, path_in};
ghost use Rattle.retro_log.specs.Document.{json_of};
ghost use Rattle.casebook_undo.specs.Reading.{is_undo_file, undo_in, undo_of, undo_view};
ghost use Rattle.casebook_undo.specs.Reads.{IsReadOf};
ghost use Rattle.casebook_undo.specs.declared.undo_fault.UndoFault.TheVariants.{NotAnUndoFile, NotJson};
ghost use Rattle.casebook_undo.specs.inner.Faults.{Reads};

use crate::cell_fault::or_fault;
use crate::node_cells::cells_in;
use crate::path_cell::path_in;
use crate::row_cells::rows_in;
use crate::undo_fault::UndoFault;
use crate::undo_file::UndoFile;
use casebook_folder::{Row, Rows};
use retro_path::Path;
use serde_json::Value;
use std::alloc::Global;
use std::str::from_utf8;

/// Returns whether a value says that it is an undo file.
fn is_undo_file(value: &Value) -> bool
    ensures { result ≡ is_undo_file (view value.now) }
{
    match value.get("undo").and_then(Value::as_u64) {
        Some(version) => version == 1,
        None => false,
    }
}

/// Reads the path of the folder.
fn at_in(alloc: Global, value: &Value) -> Result<Path, UndoFault>
    ensures { Reads (λ at. at) result
        (ok_or (option_and_then path_in (get (codes "at") (view value.now))) NotAnUndoFile) }
{
    match value.get("at") {
        Some(at) => or_fault(UndoFault::NotAnUndoFile, path_in(alloc, at)),
        None => Err(UndoFault::NotAnUndoFile),
    }
}

/// Returns the list of rows.
fn list_in(value: &Value) -> Result<&[Value], UndoFault>
    ensures { Reads (λ cells. map view cells.now) result
        (ok_or (option_and_then cells_in (get (codes "rows") (view value.now))) NotAnUndoFile) }
{
    match value.get("rows").and_then(cells_in) {
        Some(cells) => Ok(cells),
        None => Err(UndoFault::NotAnUndoFile),
    }
}

/// Reads the path of the folder and the rows, in any order.
#[tactic(auto, unfolding(crate::specs::Reading::undo_of))]
fn undo_of(alloc: Global, value: &Value) -> Result<(Path, Vec<Row>), UndoFault>
    ensures { Reads (λ parts. undo_view parts.0 parts.1.items) result (undo_of (view value.now)) }
{
    if !is_undo_file(value) {
        return Err(UndoFault::NotAnUndoFile);
    }
    let at = at_in(alloc, value)?;
    let cells = list_in(value)?;
    let rows = rows_in(alloc, cells)?;
    Ok((at, rows))
}

/// Parses bytes as a JSON value.
fn parse(alloc: Global, bytes: &[u8]) -> Result<Value, UndoFault>
    ensures { Reads view result (ok_or (json_of bytes.now) NotJson) }
{
    let Ok(text) = from_utf8(bytes) else {
        return Err(UndoFault::NotJson);
    };
    match Value::from_str(alloc, text) {
        Ok(value) => Ok(value),
        Err(error) if error.is_memory() => Err(UndoFault::NoMem),
        Err(_) => Err(UndoFault::NotJson),
    }
}

/// Reads the path and the rows of an undo file, in any order.
#[tactic(auto, unfolding(crate::specs::Reading::undo_in))]
fn read_parts(alloc: Global, bytes: &[u8]) -> Result<(Path, Vec<Row>), UndoFault>
    ensures { Reads (λ parts. undo_view parts.0 parts.1.items) result (undo_in bytes.now) }
{
    let value = parse(alloc, bytes)?;
    undo_of(alloc, &value)
}

/// Reads an undo file of version 1. Keys that it doesn't have to have don't count, and hexadecimal
/// digits may be of either case.
///
/// # Errors
///
/// The first of these, if memory doesn't run out: `NotJson`, `NotAnUndoFile`, `BadRow` with the
/// place of the first bad row, and `Unsorted`.
pub fn read_rows(alloc: Global, bytes: &[u8]) -> Result<UndoFile, UndoFault>
    ensures { IsReadOf (undo_in bytes.now) result }
{
    let (at, rows) = read_parts(alloc, bytes)?;
    match Rows::of(rows) {
        Ok(rows) => Ok(UndoFile { at, rows }),
        Err(_) => Err(UndoFault::Unsorted),
    }
}
