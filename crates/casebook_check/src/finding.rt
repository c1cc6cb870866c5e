//! Finds places in documents.
ghost use Rattle.std.specs.Prelude.{◌≡◌, Err, IfOk, IfSome, IsTrue, None};
ghost use Rattle.std.specs.Str.{IsUtf8};
ghost use Rattle.serde_json.specs.Read.{read as read_text};
ghost use Rattle.retro_value.specs.Borrowed.{value_data};
ghost use Rattle.retro_json.specs.Shape.{cells};
ghost use Rattle.retro_json.specs.declared.fault.Part.TheVariants as parts;
ghost use Rattle.retro_json.specs.declared.fault.Refusal.TheVariants as refusals;
ghost use Rattle.casebook_check.specs.Place.{IsPlace, IsPlaceIn, IsPlaceInLog, IsPlaceInScript};
ghost use Rattle.casebook_check.specs.Place.{IsValueRefused};
ghost use Rattle.casebook_check.specs.declared.kind.Kind.{Kind};

use crate::NoMem;
use crate::items::{first_refused, item_at};
use crate::key::Key;
use crate::kind::Kind;
use crate::lawless::is_lawless;
use crate::members::{items_at, member_at, missing_key, other_key};
use crate::numbers::{first_fall, least_number};
use crate::place::Place;
use crate::sessions::{first_repeat, first_stranger};
use crate::stops::stop_of;
use crate::versions::version_place;
use json::{Scratch, Value};
use retro_json::{Part, Refusal, cells};
use retro_tree::Text;
use retro_value::{ReadError, read_whole};
use std::alloc::Global;
use std::str::from_utf8;

/// Returns the key that the document shouldn't have.
fn other_key_place(alloc: Global, kind: Kind, value: &Value<'_>) -> Result<Place, NoMem>
    ensures { IfOk result (λ place.
        IsPlaceIn kind (value_data value.now) refusals.UnknownKey place) }
{
    match other_key(kind, value) {
        Some(key) => Ok(Place::OtherKey(Text::of(String::from_str(alloc, key)?))),
        None => Ok(Place::Document),
    }
}

/// Returns the first key that an object should have and lacks.
fn missing_key_place(kind: Kind, value: &Value<'_>) -> Place
    ensures { IsPlaceIn kind (value_data value.now) (refusals.WrongShape parts.Document) result }
{
    match (value, missing_key(kind, value)) {
        (Value::Object(_), Some(key)) => Place::MissingKey(key),
        _ => Place::Document,
    }
}

/// Returns whether a value is refused for a given reason because it isn't a list.
fn is_no_list(part: Part, value: &Value<'_>, refusal: Refusal) -> bool
    ensures { IsTrue result → cells part (value_data value.now) ≡ Err refusal }
{
    cells(part, value).err() == Some(refusal)
}

/// Returns whether the value of a key is refused for a given reason because it isn't a list.
fn is_refused_shape(key: Key, value: &Value<'_>, refusal: Refusal) -> bool
    ensures { IsTrue result
        → (kind : Kind) → IsValueRefused kind key (value_data value.now) refusal }
{
    match key {
        Key::Tree => is_no_list(Part::Tree, value, refusal),
        Key::Sessions => is_no_list(Part::Sessions, value, refusal),
        Key::Lines => is_no_list(Part::Lines, value, refusal),
        _ => false,
    }
}

/// Returns the value of a key as a place, if it is refused for a given reason because it isn't a
/// list.
fn shape_place(key: Key, value: &Value<'_>, refusal: Refusal) -> Option<Place>
    ensures { IfSome result (λ place.
        (kind : Kind) → IsPlaceIn kind (value_data value.now) refusal place) }
{
    match member_at(value, key) {
        Some(list) if is_refused_shape(key, list, refusal) => Some(Place::Value(key)),
        _ => None,
    }
}

/// Returns the first item of the list at a key that is refused for a given reason, or the value of
/// the key if it is refused so because it isn't a list.
fn place_in_list(
    alloc: Global,
    kind: Kind,
    key: Key,
    value: &Value<'_>,
    refusal: Refusal,
) -> Result<Option<Place>, NoMem>
    ensures { IfOk result (λ found. IfSome found (λ place.
        IsPlaceIn kind (value_data value.now) refusal place)) }
{
    let Some(items) = items_at(value, key) else {
        return Ok(shape_place(key, value, refusal));
    };
    match first_refused(alloc, kind, key, items, refusal)? {
        Some(index) => Ok(Some(Place::Item(item_at(key, items, index)))),
        None => Ok(None),
    }
}

/// Looks through the tree, the sessions and the lines of a document. Returns the first list, or
/// item of one, that is refused for a given reason by itself.
fn place_in_lists(
    alloc: Global,
    kind: Kind,
    value: &Value<'_>,
    refusal: Refusal,
) -> Result<Place, NoMem>
    ensures { IfOk result (λ place. IsPlaceIn kind (value_data value.now) refusal place) }
{
    for key in [Key::Tree, Key::Sessions, Key::Lines] {
        if let Some(place) = place_in_list(alloc, kind, key, value, refusal)? {
            return Ok(place);
        }
    }
    Ok(Place::Document)
}

/// Returns the first line whose number is too small.
fn fall_place(value: &Value<'_>) -> Place
    ensures { (kind : Kind)
        → IsPlaceIn kind (value_data value.now) refusals.NumbersNotRising result }
{
    let Some(items) = items_at(value, Key::Lines) else {
        return Place::Document;
    };
    match first_fall(least_number(value), items) {
        Some(index) => Place::Item(item_at(Key::Lines, items, index)),
        None => Place::Document,
    }
}

/// Returns the first line with a session that isn't among the document's.
fn stranger_place(alloc: Global, value: &Value<'_>) -> Result<Place, NoMem>
    ensures { IfOk result (λ place. (kind : Kind)
        → IsPlaceIn kind (value_data value.now) refusals.UnknownSession place) }
{
    let (Some(rows), Some(items)) = (items_at(value, Key::Sessions), items_at(value, Key::Lines))
    else {
        return Ok(Place::Document);
    };
    match first_stranger(alloc, rows, items)? {
        Some(index) => Ok(Place::Item(item_at(Key::Lines, items, index))),
        None => Ok(Place::Document),
    }
}

/// Returns the first row of the sessions whose number a row before it has.
fn repeat_place(alloc: Global, value: &Value<'_>) -> Result<Place, NoMem>
    ensures { IfOk result (λ place. (kind : Kind) → IsPlaceIn kind (value_data value.now)
        (refusals.WrongShape parts.Sessions) place) }
{
    let Some(rows) = items_at(value, Key::Sessions) else {
        return Ok(Place::Document);
    };
    match first_repeat(alloc, rows)? {
        Some(index) => Ok(Place::Item(item_at(Key::Sessions, rows, index))),
        None => Ok(Place::Document),
    }
}

/// Returns the session that has a wrong shape by itself, or else whose number is listed twice.
fn session_place(alloc: Global, kind: Kind, value: &Value<'_>) -> Result<Place, NoMem>
    ensures { IfOk result (λ place. IsPlaceIn kind (value_data value.now)
        (refusals.WrongShape parts.Sessions) place) }
{
    let refusal = Refusal::WrongShape(Part::Sessions);
    match place_in_list(alloc, kind, Key::Sessions, value, refusal)? {
        Some(place) => Ok(place),
        None => repeat_place(alloc, value),
    }
}

/// Returns the tree, if it isn't lawful. A change of a line that isn't lawful isn't looked for.
fn lawless_place(alloc: Global, value: &Value<'_>) -> Result<Place, NoMem>
    ensures { IfOk result (λ place. (kind : Kind)
        → IsPlaceIn kind (value_data value.now) refusals.LawlessTree place) }
{
    let Some(tree) = member_at(value, Key::Tree) else {
        return Ok(Place::Document);
    };
    let lawless = is_lawless(alloc, tree)?;
    if lawless {
        return Ok(Place::Value(Key::Tree));
    }
    Ok(Place::Document)
}

/// Returns the place in the value of a document for which it is refused.
fn place_in_value(
    alloc: Global,
    kind: Kind,
    value: &Value<'_>,
    refusal: Refusal,
) -> Result<Place, NoMem>
    ensures { IfOk result (λ place. IsPlaceIn kind (value_data value.now) refusal place) }
{
    match refusal {
        Refusal::UnknownKey => other_key_place(alloc, kind, value),
        Refusal::WrongShape(Part::Document) => Ok(missing_key_place(kind, value)),
        Refusal::WrongShape(Part::Version) | Refusal::BadVersion => {
            Ok(version_place(kind, value, refusal))
        }
        Refusal::WrongShape(Part::Sessions) => session_place(alloc, kind, value),
        Refusal::WrongShape(_) | Refusal::BadHex | Refusal::OverLimit => {
            place_in_lists(alloc, kind, value, refusal)
        }
        Refusal::NumbersNotRising => Ok(fall_place(value)),
        Refusal::UnknownSession => stranger_place(alloc, value),
        Refusal::LawlessTree => lawless_place(alloc, value),
        Refusal::NotJson => Ok(Place::Document),
    }
}

/// Returns the byte, counted from 1, at which a text stops to be a JSON value.
fn stop_place(alloc: Global, text: &str) -> Result<Place, NoMem>
    requires utf8 { IsUtf8 text.now }
    requires no_value { read_text text.now ≡ None }
    ensures { IfOk result (λ place. (kind : Kind) → IsPlace kind text.now refusals.NotJson place) }
{
    let offset = stop_of(alloc, text)?;
    Ok(Place::Byte(offset.saturating_add(1)))
}

/// Returns the place in the text of a document for which it is refused.
fn place_in_text(alloc: Global, kind: Kind, text: &str, refusal: Refusal) -> Result<Place, NoMem>
    requires { IsUtf8 text.now }
    ensures { IfOk result (λ place. IsPlace kind text.now refusal place) }
{
    let mut scratch = Scratch::new(alloc);
    match read_whole(alloc, text, &mut scratch) {
        Ok(value) => place_in_value(alloc, kind, &value, refusal),
        Err(ReadError::NoMem) => Err(NoMem),
        Err(ReadError::NotJson) => match refusal {
            Refusal::NotJson => stop_place(alloc, text),
            _ => Ok(Place::Document),
        },
    }
}

/// Returns the place in the bytes of a document for which it is refused.
fn place_in(alloc: Global, kind: Kind, bytes: &[u8], refusal: Refusal) -> Result<Place, NoMem>
    ensures { IfOk result (λ place. IsPlace kind bytes.now refusal place) }
{
    match (from_utf8(bytes), refusal) {
        (Ok(text), _) => place_in_text(alloc, kind, text, refusal),
        (Err(error), Refusal::NotJson) => Ok(Place::Byte(error.valid_up_to() + 1)),
        (Err(_), _) => Ok(Place::Document),
    }
}

/// Returns a place in a log that is refused: one that breaks the rule of the refusal.
///
/// It's the first item of its list that is refused so by itself, the first line whose number is too
/// small or whose session isn't listed, a key that a log of its version can't have, the first key
/// that it lacks, the value of a key, or the byte at which the bytes stop to be UTF-8 or JSON. If
/// nothing narrower is known, or the log isn't refused so, it's [`Place::Document`].
pub fn place_in_log(alloc: Global, bytes: &[u8], refusal: Refusal) -> Result<Place, NoMem>
    ensures { IfOk result (λ place. IsPlaceInLog bytes.now refusal place) }
{
    place_in(alloc, Kind::Log, bytes, refusal)
}

/// Returns a place in a script that is refused, as [`place_in_log`] does for a log.
pub fn place_in_script(alloc: Global, bytes: &[u8], refusal: Refusal) -> Result<Place, NoMem>
    ensures { IfOk result (λ place. IsPlaceInScript bytes.now refusal place) }
{
    place_in(alloc, Kind::Script, bytes, refusal)
}
