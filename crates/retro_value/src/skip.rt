//! Passes over values.
ghost use Rattle.std.specs.Prelude.{◌≡◌, ◌<◌, ◌∷◌, Err, IfOk, IsTrue, None, OnOk, Some, length};
ghost use Rattle.std.specs.Bool.{MatchBool};
ghost use Rattle.json.specs.Json.{parse_map};
ghost use Rattle.json.specs.Reads.{token_of};
ghost use Rattle.serde_json.specs.Data.{Data, Items, Members, item, no_items, no_members};
ghost use Rattle.retro_value.specs.Left.{IsOf, is_whole, items_left, members_left, value_left};
ghost use Rattle.retro_value.specs.declared.error.ReadError.TheVariants.{NotJson};

use crate::error::ReadError;
use crate::list::next_item;
use crate::number::is_number_in_range;
use crate::value::read_value;
use json::{Reader, Token};
use std::alloc::Global;

/// Passes over the next item of an array, and returns whether there was one.
fn pass_item(alloc: Global, reader: &mut Reader<'_>, depth: usize) -> Result<bool, ReadError>
    ensures value { IfOk result (λ more. MatchBool more
        ((d : Data) × (items_left depth reader.old
        ≡ parse_map (item d) (items_left depth reader.new)))
        (items_left depth reader.old ≡ Some (no_items, reader.new))) }
    ensures shorter { IfOk result (λ more. IsTrue more → length reader.new < length reader.old) }
    ensures not_json { result ≡ Err NotJson → items_left depth reader.old ≡ None }
{
    Ok(next_item(alloc, reader, depth)?.is_some())
}

/// Passes over the items that are left of an array.
fn pass_items(alloc: Global, reader: &mut Reader<'_>, depth: usize) -> Result<(), ReadError>
    ensures value { OnOk result
        ((ds : Items) × (items_left depth reader.old ≡ Some (ds, reader.new))) }
    ensures not_json { result ≡ Err NotJson → items_left depth reader.old ≡ None }
{
    'items: while pass_item(alloc, reader, depth)? {}
    Ok(())
}

/// Passes over the next value.
pub fn pass_value(alloc: Global, reader: &mut Reader<'_>, depth: usize) -> Result<(), ReadError>
    ensures value { OnOk result
        ((d : Data) × (value_left depth reader.old ≡ Some (d, reader.new))) }
    ensures shorter { OnOk result (length reader.new < length reader.old) }
    ensures not_json { result ≡ Err NotJson → value_left depth reader.old ≡ None }
{
    read_value(alloc, reader, depth)?;
    Ok(())
}

/// Passes over the members that are left of an object.
fn pass_members(alloc: Global, reader: &mut Reader<'_>, depth: usize) -> Result<(), ReadError>
    ensures value { OnOk result
        ((ms : Members) × (members_left depth no_members reader.old ≡ Some (ms, reader.new))) }
    ensures not_json { result ≡ Err NotJson → members_left depth no_members reader.old ≡ None }
{
    'members: while reader.next_key()?.is_some() {
        pass_value(alloc, reader, depth)?;
    }
    Ok(())
}

/// Returns whether a token is a whole value.
fn is_whole(token: &Token<'_>) -> bool
    ensures { result ≡ is_whole (token_of token.now) }
{
    match token {
        Token::String(_) | Token::Bool(_) | Token::Null => true,
        Token::Number(text) => is_number_in_range(text),
        _ => false,
    }
}

/// Passes over the rest of the value that begins with a token.
pub fn pass_rest(
    alloc: Global,
    token: Token<'_>,
    reader: &mut Reader<'_>,
    depth: usize,
) -> Result<(), ReadError>
    requires { 0 < depth }
    ensures value { OnOk result ((d : Data) ×
        (value_left depth (token_of token.entry ∷ reader.old) ≡ Some (d, reader.new)) ×
        IsOf (token_of token.entry) d) }
    ensures not_json { result ≡ Err NotJson
        → value_left depth (token_of token.entry ∷ reader.old) ≡ None }
{
    match token {
        Token::BeginArray => pass_items(alloc, reader, depth - 1),
        Token::BeginObject => pass_members(alloc, reader, depth - 1),
        _ => if is_whole(&token) {
            Ok(())
        } else {
            Err(ReadError::NotJson)
        },
    }
}
