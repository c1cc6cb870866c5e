//! Reads the rows of the lists of a document.
ghost use Rattle.std.specs.Prelude.{◌≡◌, ◌≤◌, ◌^◌, IfOk, map, option_map};
ghost use Rattle.retro_value.specs.Borrowed.{value_data};
ghost use Rattle.casebook_snapshot_read.specs.Rows.{attributes_cells, attributes_of, attributes_row};
ghost use Rattle.casebook_snapshot_read.specs.Rows.{is_odd_name, name_in, number_in, odd_row};
ghost use Rattle.casebook_snapshot_read.specs.Rows.{plain_row, reason_in, skipped_cells};
ghost use Rattle.casebook_snapshot_read.specs.Rows.{skipped_row, skipped_view, tree_row};

use crate::NoMem;
use crate::paths::{child_of_text, is_written_name, path_in};
use crate::reasons::reason_named;
use casebook_folder::Attributes;
use casebook_snapshot::{Child, Reason, SkippedPath};
use hex::FromHexError;
use json::Value;
use retro_json::{Part, cells, read_tree_row};
use retro_path::Path;
use retro_tree::Entry;
use retro_value::{text_in, unsigned_in};
use std::alloc::Global;
use std::str::from_utf8;

/// The least number that isn't a mode.
const MODE_END: u64 = 0o10000;

/// The least number that isn't the number of an owner or a group.
const OWNER_END: u64 = 1 << u32::BITS;

/// Reads a row of the tree: `["/d"]` for a directory, `["/f","hex"]` for a file.
pub(crate) fn tree_row(alloc: Global, row: &Value<'_>) -> Result<Option<(Path, Entry)>, NoMem>
    ensures { IfOk result (λ read. read ≡ tree_row (value_data row.now)) }
{
    Ok(read_tree_row(alloc, row)?.ok())
}

/// Returns the whole number below an end that a value is.
fn number_in(end: u64, value: &Value<'_>) -> Option<u32>
    requires { end ≤ 2 ^ 32 }
    ensures { result ≡ number_in end (value_data value.now) }
{
    match unsigned_in(value) {
        Some(number) if number < end => Some(number as u32),
        _ => None,
    }
}

/// Reads a mode, an owner and a group.
fn attributes_of(mode: &Value<'_>, uid: &Value<'_>, gid: &Value<'_>) -> Option<Attributes>
    ensures { result
        ≡ attributes_of (value_data mode.now) (value_data uid.now) (value_data gid.now) }
{
    let mode = number_in(MODE_END, mode)?;
    let uid = number_in(OWNER_END, uid)?;
    let gid = number_in(OWNER_END, gid)?;
    Some(Attributes { mode, uid, gid })
}

/// Reads the path, the mode and the owner of a row from its items.
fn attributes_cells(alloc: Global, cells: &[Value<'_>]) -> Result<Option<(Path, Attributes)>, NoMem>
    ensures { IfOk result (λ read. read ≡ attributes_cells (map value_data cells.now)) }
{
    let [path, mode, uid, gid] = cells else {
        return Ok(None);
    };
    let Some(path) = path_in(alloc, path)? else {
        return Ok(None);
    };
    match attributes_of(mode, uid, gid) {
        Some(attributes) => Ok(Some((path, attributes))),
        None => Ok(None),
    }
}

/// Reads a row of modes and owners: `[path,mode,uid,gid]`.
pub(crate) fn attributes_row(
    alloc: Global,
    row: &Value<'_>,
) -> Result<Option<(Path, Attributes)>, NoMem>
    ensures { IfOk result (λ read. read ≡ attributes_row (value_data row.now)) }
{
    match cells(Part::Tree, row) {
        Ok(cells) => attributes_cells(alloc, cells),
        Err(_) => Ok(None),
    }
}

/// Reads a reason.
fn reason_in(value: &Value<'_>) -> Option<Reason>
    ensures { result ≡ reason_in (value_data value.now) }
{
    reason_named(text_in(value)?)
}

/// Returns whether a name is one that only a row of three can have: it isn't UTF-8.
#[tactic(auto, using(crate::proofs::Odd::odd_names))]
fn is_odd_name(name: &[u8]) -> bool
    ensures { result ≡ is_odd_name name.now }
{
    match from_utf8(name) {
        Ok(_) => false,
        Err(_) => is_written_name(name),
    }
}

/// Reads a name that isn't UTF-8, from hexadecimal digits of either case.
fn name_in(alloc: Global, value: &Value<'_>) -> Result<Option<Vec<u8>>, NoMem>
    ensures { IfOk result (λ name.
        option_map (λ n. n.items) name ≡ name_in (value_data value.now)) }
{
    let Some(text) = text_in(value) else {
        return Ok(None);
    };
    match hex::decode(alloc, text) {
        Ok(name) => {
            if is_odd_name(name.as_slice()) {
                Ok(Some(name))
            } else {
                Ok(None)
            }
        }
        Err(FromHexError::OutOfMemory) => Err(NoMem),
        Err(_) => Ok(None),
    }
}

/// Reads a row of two: `[path,reason]`.
fn plain_row(
    alloc: Global,
    path: &Value<'_>,
    reason: &Value<'_>,
) -> Result<Option<SkippedPath>, NoMem>
    ensures { IfOk result (λ read. option_map skipped_view read
        ≡ plain_row (value_data path.now) (value_data reason.now)) }
{
    let Some(text) = text_in(path) else {
        return Ok(None);
    };
    let Some(child) = child_of_text(alloc, text)? else {
        return Ok(None);
    };
    match reason_in(reason) {
        Some(reason) => Ok(Some(SkippedPath { child, reason })),
        None => Ok(None),
    }
}

/// Reads a row of three: `[directory,reason,hex]`.
fn odd_row(
    alloc: Global,
    directory: &Value<'_>,
    reason: &Value<'_>,
    name: &Value<'_>,
) -> Result<Option<SkippedPath>, NoMem>
    ensures { IfOk result (λ read. option_map skipped_view read
        ≡ odd_row (value_data directory.now) (value_data reason.now) (value_data name.now)) }
{
    let Some(parent) = path_in(alloc, directory)? else {
        return Ok(None);
    };
    let Some(name) = name_in(alloc, name)? else {
        return Ok(None);
    };
    let child = Child { parent, name };
    match reason_in(reason) {
        Some(reason) => Ok(Some(SkippedPath { child, reason })),
        None => Ok(None),
    }
}

/// Reads what is skipped from the items of its row.
fn skipped_cells(alloc: Global, cells: &[Value<'_>]) -> Result<Option<SkippedPath>, NoMem>
    ensures { IfOk result (λ read.
        option_map skipped_view read ≡ skipped_cells (map value_data cells.now)) }
{
    match cells {
        [path, reason] => plain_row(alloc, path, reason),
        [directory, reason, name] => odd_row(alloc, directory, reason, name),
        _ => Ok(None),
    }
}

/// Reads a row of what is skipped: `[path,reason]`, or `[directory,reason,hex]` if the name isn't
/// UTF-8.
pub(crate) fn skipped_row(alloc: Global, row: &Value<'_>) -> Result<Option<SkippedPath>, NoMem>
    ensures { IfOk result (λ read.
        option_map skipped_view read ≡ skipped_row (value_data row.now)) }
{
    match cells(Part::Tree, row) {
        Ok(cells) => skipped_cells(alloc, cells),
        Err(_) => Ok(None),
    }
}
