//! Reads the documents of cases.
ghost use Rattle.std.specs.Prelude.{◌≡◌, codes, map, ok_or, option_and_then, option_map};
ghost use Rattle.serde_json.specs.Find.{get};
ghost use Rattle.serde_json.specs.View.{view};
ghost use Rattle.retro_log.specs.Document.{json_of};
ghost use Rattle.casebook_case.specs.Reading.{case_at, case_in, content_in, contents_from};
ghost use Rattle.casebook_case.specs.Reading.{is_case, items_in, parts_of, text_at};
ghost use Rattle.casebook_case.specs.Reads.{Reads};
ghost use Rattle.casebook_case.specs.inner.Views.{parts_view};
ghost use Rattle.casebook_case.specs.declared.case_fault.CaseFault.TheVariants.{BadContent};
ghost use Rattle.casebook_case.specs.declared.case_fault.CaseFault.TheVariants.{NotACase, NotJson};

use crate::case::Case;
use crate::case_fault::CaseFault;
use crate::checking::case_of;
use hex::FromHexError;
use retro_path::Bytes;
use serde_json::Value;
use std::alloc::Global;
use std::str::from_utf8;

/// The parts of a case.
#[derive(Drop)]
struct Parts<'a> {
    /// The bytes of files.
    contents: Vec<Bytes>,
    /// The text of the first look.
    first: &'a str,
    /// The text of the observations.
    lines: &'a str,
    /// The rows of the folders in which it wasn't always seen what lines only read.
    unseen: &'a str,
}

/// Returns the items of a list.
#[tactic(auto, using(retro_json::proofs::Json::items_listed))]
fn items_in(value: &Value) -> Option<&[Value]>
    ensures { option_map (λ items. map view items.now) result ≡ items_in (view value.now) }
{
    match value.as_array() {
        Some(items) => Some(items.as_slice()),
        None => None,
    }
}

/// Reads the bytes at a place of the contents.
fn content_at(alloc: Global, place: usize, value: &Value) -> Result<Bytes, CaseFault>
    ensures { Reads (λ bytes. bytes) result
        (ok_or (content_in (view value.now)) (BadContent place)) }
{
    let Some(hex) = value.as_str() else {
        return Err(CaseFault::BadContent(place));
    };
    match hex::decode(alloc, hex) {
        Ok(bytes) => Ok(Bytes::of(bytes)),
        Err(FromHexError::OutOfMemory) => Err(CaseFault::NoMem),
        Err(_) => Err(CaseFault::BadContent(place)),
    }
}

/// Reads the contents.
fn contents_in(alloc: Global, items: &[Value]) -> Result<Vec<Bytes>, CaseFault>
    ensures { Reads (λ contents. contents.items) result
        (contents_from 1 (map view items.now)) }
{
    let mut contents = Vec::new(alloc);
    for item in items {
        let bytes = content_at(alloc, contents.len() + 1, item)?;
        contents.push(bytes)?;
    }
    Ok(contents)
}

/// Returns whether a value says that it is a case.
fn is_case(value: &Value) -> bool
    ensures { result ≡ is_case (view value.now) }
{
    match value.get("case").and_then(Value::as_u64) {
        Some(version) => version == 1,
        None => false,
    }
}

/// Returns the text at a key.
fn text_at<'v>(key: &str, value: &'v Value) -> Result<&'v str, CaseFault>
    ensures { Reads (λ text. text.now) result (text_at key.now (view value.now)) }
{
    value
        .get(key)
        .and_then(Value::as_str)
        .ok_or(CaseFault::NotACase)
}

/// Returns the list of the contents.
fn list_in(value: &Value) -> Result<&[Value], CaseFault>
    ensures { Reads (λ items. map view items.now) result
        (ok_or (option_and_then items_in (get (codes "contents") (view value.now))) NotACase) }
{
    match value.get("contents").and_then(items_in) {
        Some(items) => Ok(items),
        None => Err(CaseFault::NotACase),
    }
}

/// Reads the parts of a case.
#[tactic(auto, unfolding(crate::specs::Reading::parts_of))]
fn parts_of(alloc: Global, value: &Value) -> Result<Parts<'_>, CaseFault>
    ensures { Reads parts_view result (parts_of (view value.now)) }
{
    if !is_case(value) {
        return Err(CaseFault::NotACase);
    }
    let first = text_at("first", value)?;
    let lines = text_at("lines", value)?;
    let unseen = text_at("unseen", value)?;
    let items = list_in(value)?;
    let contents = contents_in(alloc, items)?;
    Ok(Parts {
        contents,
        first,
        lines,
        unseen,
    })
}

/// Parses bytes as a JSON value.
fn parse(alloc: Global, bytes: &[u8]) -> Result<Value, CaseFault>
    ensures { Reads view result (ok_or (json_of bytes.now) NotJson) }
{
    let Ok(text) = from_utf8(bytes) else {
        return Err(CaseFault::NotJson);
    };
    match Value::from_str(alloc, text) {
        Ok(value) => Ok(value),
        Err(error) if error.is_memory() => Err(CaseFault::NoMem),
        Err(_) => Err(CaseFault::NotJson),
    }
}

/// Reads a case from its value.
#[tactic(auto, unfolding(crate::specs::Reading::case_at))]
fn case_at(alloc: Global, value: &Value) -> Result<Case, CaseFault>
    ensures { Reads (λ found. found) result (case_at (view value.now)) }
{
    let parts = parts_of(alloc, value)?;
    case_of(
        alloc,
        parts.contents,
        parts.first.as_bytes(),
        parts.lines.as_bytes(),
        parts.unseen.as_bytes(),
    )
}

/// Reads the document of a case of version 1. Keys that it doesn't have to have don't count, and
/// hexadecimal digits may be of either case.
///
/// # Errors
///
/// The first of these, if memory doesn't run out: `NotJson`, `NotACase`, `BadContent` with the place
/// of the first bytes that aren't any, `BadFirst`, `BadLine`, `MissingFirst` and `MissingLine` with
/// the number of the first such row.
#[tactic(auto, unfolding(crate::specs::Reading::case_in))]
pub fn read_case(alloc: Global, bytes: &[u8]) -> Result<Case, CaseFault>
    ensures { Reads (λ found. found) result (case_in bytes.now) }
{
    let value = parse(alloc, bytes)?;
    case_at(alloc, &value)
}
