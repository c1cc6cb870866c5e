//! Looks for keys.
ghost use Rattle.std.specs.Prelude.{◌≡◌, IfSome, false, map, not, option_map, true};
ghost use Rattle.serde_json.specs.Find.{get};
ghost use Rattle.retro_value.specs.Borrowed.{value_data};
ghost use Rattle.retro_log.specs.Document.{has_member, is_key, part_keys};
ghost use Rattle.casebook_check.specs.Keys.{first_missing, is_log_of, key_name, known_keys};
ghost use Rattle.casebook_check.specs.Keys.{may_have};
ghost use Rattle.casebook_check.specs.Place.{HasItems};

use crate::key::Key;
use crate::kind::Kind;
use json::Value;
use retro_value::{items_in, unsigned_in};

/// Returns the value at a key of an object. If the key occurs twice, it is the last value.
pub(crate) fn member_at<'v, 'a>(value: &'v Value<'a>, key: Key) -> Option<&'v Value<'a>>
    ensures { option_map (λ v. value_data v.now) result ≡ get (key_name key) (value_data value.now) }
{
    value.get(key.name())
}

/// Returns whether an object lacks a key.
fn lacks(value: &Value<'_>, key: Key) -> bool
    ensures { result ≡ not (has_member (value_data value.now) (key_name key)) }
{
    member_at(value, key).is_none()
}

/// Returns whether a document is a log that says it has a version.
fn is_log_of(version: u64, kind: Kind, value: &Value<'_>) -> bool
    ensures { result ≡ is_log_of version kind (value_data value.now) }
{
    match (kind, member_at(value, Key::Log)) {
        (Kind::Log, Some(number)) => unsigned_in(number) == Some(version),
        _ => false,
    }
}

/// Returns whether a key is one of scripts and logs alike.
fn is_part(key: &str) -> bool
    ensures { result ≡ is_key part_keys key.now }
{
    key == "tree" || key == "sessions" || key == "lines"
}

/// Returns whether a document of a kind may have a key. A log of version 1 has no `from`.
fn may_have(kind: Kind, is_first_version: bool, key: &str) -> bool
    ensures { result ≡ is_key (known_keys kind is_first_version) key.now }
{
    match kind {
        Kind::Script => key == "script" || is_part(key),
        Kind::Log if is_first_version => key == "log" || is_part(key),
        Kind::Log => key == "from" || key == "log" || is_part(key),
    }
}

/// Returns the first key of an object that a document of a kind may not have.
pub(crate) fn other_key<'a>(kind: Kind, value: &Value<'a>) -> Option<&'a str>
    ensures { IfSome result (λ key. (has_member (value_data value.now) key.now ≡ true)
        × (may_have kind (value_data value.now) key.now ≡ false)) }
{
    let is_first_version = is_log_of(1, kind, value);
    let Value::Object(members) = value else {
        return None;
    };
    for member in members {
        if !may_have(kind, is_first_version, member.0) {
            return Some(member.0);
        }
    }
    None
}

/// Returns the first key that a document of a kind should have and lacks.
pub(crate) fn missing_key(kind: Kind, value: &Value<'_>) -> Option<Key>
    ensures { result ≡ first_missing kind (value_data value.now) }
{
    if lacks(value, kind.version_key()) {
        return Some(kind.version_key());
    }
    if lacks(value, Key::Tree) {
        return Some(Key::Tree);
    }
    if lacks(value, Key::Sessions) {
        return Some(Key::Sessions);
    }
    if lacks(value, Key::Lines) {
        return Some(Key::Lines);
    }
    if is_log_of(2, kind, value) && lacks(value, Key::From) {
        return Some(Key::From);
    }
    None
}

/// Returns the items of the list at a key, if there is such a list.
pub(crate) fn items_at<'v, 'a>(value: &'v Value<'a>, key: Key) -> Option<&'v [Value<'a>]>
    ensures { IfSome result (λ items.
        HasItems (value_data value.now) key (map value_data items.now)) }
{
    match member_at(value, key) {
        Some(list) => items_in(list),
        None => None,
    }
}
