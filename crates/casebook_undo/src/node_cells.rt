//! Reads what a path holds.
ghost use Rattle.std.specs.Prelude.{◌≡◌, map, option_map};
ghost use Rattle.serde_json.specs.View.{view};
ghost use Rattle.casebook_undo.specs.Cells.{attributes_in, bytes_of, cells_in, dir_in, file_in};
ghost use Rattle.casebook_undo.specs.Cells.{node_cells, node_in, number_up_to, tagged_node};
ghost use Rattle.casebook_undo.specs.inner.Faults.{ReadsCell};

use crate::cell_fault::CellFault;
use crate::limits::{MODE_LIMIT, NUMBER_LIMIT};
use casebook_folder::{Attributes, Found};
use hex::FromHexError;
use retro_path::Bytes;
use serde_json::Value;
use std::alloc::Global;

/// Returns the items of a list.
#[tactic(auto, using(retro_json::proofs::Json::items_listed))]
pub(crate) fn cells_in(value: &Value) -> Option<&[Value]>
    ensures { option_map (λ cells. map view cells.now) result ≡ cells_in (view value.now) }
{
    match value.as_array() {
        Some(cells) => Some(cells.as_slice()),
        None => None,
    }
}

/// Returns a whole number of at most `limit`.
fn number_up_to(limit: u32, value: &Value) -> Option<u32>
    ensures { result ≡ number_up_to limit (view value.now) }
{
    match value.as_u64() {
        Some(number) if number <= u64::from(limit) => Some(number as u32),
        _ => None,
    }
}

/// Reads a mode and an owner: `mode,uid,gid`.
fn attributes_in(cells: &[Value]) -> Option<Attributes>
    ensures { result ≡ attributes_in (map view cells.now) }
{
    let [mode, uid, gid] = cells else {
        return None;
    };
    let mode = number_up_to(MODE_LIMIT, mode)?;
    let uid = number_up_to(NUMBER_LIMIT, uid)?;
    let gid = number_up_to(NUMBER_LIMIT, gid)?;
    Some(Attributes { mode, uid, gid })
}

/// Returns the bytes that pairs of hexadecimal digits of either case encode.
fn bytes_of(alloc: Global, value: &Value) -> Result<Bytes, CellFault>
    ensures { ReadsCell result (bytes_of (view value.now)) }
{
    let Some(hex) = value.as_str() else {
        return Err(CellFault::WrongShape);
    };
    match hex::decode(alloc, hex) {
        Ok(bytes) => Ok(Bytes::of(bytes)),
        Err(FromHexError::OutOfMemory) => Err(CellFault::NoMem),
        Err(_) => Err(CellFault::WrongShape),
    }
}

/// Reads a directory from the cells after its tag: `mode,uid,gid`.
fn dir_in(cells: &[Value]) -> Result<Found, CellFault>
    ensures { ReadsCell result (dir_in (map view cells.now)) }
{
    match attributes_in(cells) {
        Some(attributes) => Ok(Found::Dir(attributes)),
        None => Err(CellFault::WrongShape),
    }
}

/// Reads a file from the cells after its tag: `hex,mode,uid,gid`.
fn file_in(alloc: Global, cells: &[Value]) -> Result<Found, CellFault>
    ensures { ReadsCell result (file_in (map view cells.now)) }
{
    let [hex, more @ ..] = cells else {
        return Err(CellFault::WrongShape);
    };
    let bytes = bytes_of(alloc, hex)?;
    match attributes_in(more) {
        Some(attributes) => Ok(Found::File(bytes, attributes)),
        None => Err(CellFault::WrongShape),
    }
}

/// Reads a directory or a file from its tag and the cells after it.
fn tagged_node(alloc: Global, tag: &str, cells: &[Value]) -> Result<Found, CellFault>
    ensures { ReadsCell result (tagged_node tag.now (map view cells.now)) }
{
    match tag {
        "dir" => dir_in(cells),
        "file" => file_in(alloc, cells),
        _ => Err(CellFault::WrongShape),
    }
}

/// Reads a directory or a file from its cells.
fn node_cells(alloc: Global, cells: &[Value]) -> Result<Found, CellFault>
    ensures { ReadsCell result (node_cells (map view cells.now)) }
{
    let [tag, more @ ..] = cells else {
        return Err(CellFault::WrongShape);
    };
    match tag.as_str() {
        Some(tag) => tagged_node(alloc, tag, more),
        None => Err(CellFault::WrongShape),
    }
}

/// Reads what a path holds: `null`, `["dir",mode,uid,gid]` or `["file",hex,mode,uid,gid]`.
#[tactic(auto, unfolding(crate::specs::Cells::node_in))]
pub(crate) fn node_in(alloc: Global, value: &Value) -> Result<Found, CellFault>
    ensures { ReadsCell result (node_in (view value.now)) }
{
    if value.is_null() {
        return Ok(Found::Missing);
    }
    match cells_in(value) {
        Some(cells) => node_cells(alloc, cells),
        None => Err(CellFault::WrongShape),
    }
}
