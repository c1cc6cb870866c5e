//! Reads the members of a document's object.
ghost use Rattle.std.specs.Prelude.{◌≡◌, map, option_map};
ghost use Rattle.serde_json.specs.Find.{get};
ghost use Rattle.retro_value.specs.Borrowed.{value_data};
ghost use Rattle.casebook_snapshot_read.specs.Members.{has_only_keys, is_first, is_key, list_at};
ghost use Rattle.casebook_snapshot_read.specs.Members.{members_of, members_view, text_at};
ghost use Rattle.casebook_snapshot_read.specs.Reads.{Reads};

use crate::fault::SnapshotFault;
use json::Value;
use retro_json::{Part, cells};
use retro_value::{text_in, unsigned_in};

/// What the object of a document has at its keys.
#[derive(Drop)]
pub(crate) struct Members<'v, 'a> {
    /// The modes and owners.
    pub(crate) attributes: &'v [Value<'a>],
    /// The folder's own name.
    pub(crate) root: &'a str,
    /// What is skipped.
    pub(crate) skipped: &'v [Value<'a>],
    /// The time at which the snapshot was taken.
    pub(crate) taken: &'a str,
    /// The directories and files.
    pub(crate) tree: &'v [Value<'a>],
}

/// Returns whether a document has a key.
fn is_key(key: &str) -> bool
    ensures { result ≡ is_key key.now }
{
    key == "attributes"
        || key == "root"
        || key == "skipped"
        || key == "snapshot"
        || key == "taken"
        || key == "tree"
}

/// Returns whether a value is an object without other keys than those of a document.
fn has_only_keys(value: &Value<'_>) -> bool
    ensures { result ≡ has_only_keys (value_data value.now) }
{
    let Value::Object(members) = value else {
        return false;
    };
    for member in members {
        if !is_key(member.0) {
            return false;
        }
    }
    true
}

/// Returns the value at a key of an object. If the key occurs twice, it is the last value.
fn member_at<'v, 'a>(key: &str, value: &'v Value<'a>) -> Option<&'v Value<'a>>
    ensures { option_map (λ v. value_data v.now) result ≡ get key.now (value_data value.now) }
{
    value.get(key)
}

/// Returns whether a document says that it is of version 1.
fn is_first(value: &Value<'_>) -> bool
    ensures { result ≡ is_first (value_data value.now) }
{
    match member_at("snapshot", value) {
        Some(version) => unsigned_in(version) == Some(1),
        None => false,
    }
}

/// Returns the list at a key.
fn list_at<'v, 'a>(key: &str, value: &'v Value<'a>) -> Result<&'v [Value<'a>], SnapshotFault>
    ensures { Reads (λ items. map value_data items.now) result
        (list_at key.now (value_data value.now)) }
{
    let Some(list) = member_at(key, value) else {
        return Err(SnapshotFault::NotASnapshot);
    };
    match cells(Part::Tree, list) {
        Ok(items) => Ok(items),
        Err(_) => Err(SnapshotFault::NotASnapshot),
    }
}

/// Returns the text at a key.
fn text_at<'a>(key: &str, value: &Value<'a>) -> Result<&'a str, SnapshotFault>
    ensures { Reads (λ text. text.now) result (text_at key.now (value_data value.now)) }
{
    match member_at(key, value) {
        Some(text) => text_in(text).ok_or(SnapshotFault::NotASnapshot),
        None => Err(SnapshotFault::NotASnapshot),
    }
}

/// Returns what the object of a document has at its keys.
pub(crate) fn members_of<'v, 'a>(value: &'v Value<'a>) -> Result<Members<'v, 'a>, SnapshotFault>
    ensures { Reads members_view result (members_of (value_data value.now)) }
{
    if !has_only_keys(value) || !is_first(value) {
        return Err(SnapshotFault::NotASnapshot);
    }
    Ok(Members {
        attributes: list_at("attributes", value)?,
        root: text_at("root", value)?,
        skipped: list_at("skipped", value)?,
        taken: text_at("taken", value)?,
        tree: list_at("tree", value)?,
    })
}
