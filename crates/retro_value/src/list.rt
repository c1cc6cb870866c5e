//! Enters arrays and objects, and reads their parts.
ghost use Rattle.std.specs.Prelude.{◌≡◌, ◌<◌, ◌-◌, Err, IfOk, MatchOption, None, OnSome, Some, length};
ghost use Rattle.std.specs.Bool.{MatchBool};
ghost use Rattle.json.specs.Json.{parse_map};
ghost use Rattle.serde_json.specs.Data.{Data, array, item, no_items, no_members, object};
ghost use Rattle.serde_json.specs.Find.{as_array, as_object};
ghost use Rattle.retro_value.specs.Borrowed.{value_data};
ghost use Rattle.retro_value.specs.Left.{items_left, members_left, value_left};
ghost use Rattle.retro_value.specs.declared.error.ReadError.TheVariants.{NotJson};

use crate::error::ReadError;
use crate::skip::pass_rest;
use crate::value::read_value;
use json::{Reader, Token, Value};
use std::alloc::Global;

/// Returns whether the next value is an array, and enters it: its items are left to be read. Passes
/// over any other value.
pub fn begins_array(alloc: Global, reader: &mut Reader<'_>, depth: usize) -> Result<bool, ReadError>
    requires { 0 < depth }
    ensures value { IfOk result (λ begun. MatchBool begun
        (value_left depth reader.old ≡ parse_map array (items_left (depth - 1) reader.new))
        ((d : Data) × (value_left depth reader.old ≡ Some (d, reader.new))
        × (as_array d ≡ None))) }
    ensures not_json { result ≡ Err NotJson → value_left depth reader.old ≡ None }
{
    let token = reader.next().ok_or(ReadError::NotJson)?;
    if let Token::BeginArray = token {
        return Ok(true);
    }
    pass_rest(alloc, token, reader, depth)?;
    Ok(false)
}

/// Returns whether the next value is an object, and enters it: its members are left to be read.
/// Passes over any other value.
pub fn begins_object(
    alloc: Global,
    reader: &mut Reader<'_>,
    depth: usize,
) -> Result<bool, ReadError>
    requires { 0 < depth }
    ensures value { IfOk result (λ begun. MatchBool begun
        (value_left depth reader.old
        ≡ parse_map object (members_left (depth - 1) no_members reader.new))
        ((d : Data) × (value_left depth reader.old ≡ Some (d, reader.new))
        × (as_object d ≡ None))) }
    ensures not_json { result ≡ Err NotJson → value_left depth reader.old ≡ None }
{
    let token = reader.next().ok_or(ReadError::NotJson)?;
    if let Token::BeginObject = token {
        return Ok(true);
    }
    pass_rest(alloc, token, reader, depth)?;
    Ok(false)
}

/// Reads the next item of an array, or returns `None` at the end of the array.
pub fn next_item<'a>(
    alloc: Global,
    reader: &mut Reader<'a>,
    depth: usize,
) -> Result<Option<Value<'a>>, ReadError>
    ensures value { IfOk result (λ found. MatchOption found
        (items_left depth reader.old ≡ Some (no_items, reader.new))
        (λ v. items_left depth reader.old
        ≡ parse_map (item (value_data v)) (items_left depth reader.new))) }
    ensures shorter { IfOk result (λ found.
        OnSome found (length reader.new < length reader.old)) }
    ensures not_json { result ≡ Err NotJson → items_left depth reader.old ≡ None }
{
    if reader.take_end_array() {
        return Ok(None);
    }
    Ok(Some(read_value(alloc, reader, depth)?))
}
