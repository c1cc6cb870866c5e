//! Values of keys that are refused as a whole.
ghost use Rattle.std.specs.Prelude.{◌≡◌, Err, IsTrue};
ghost use Rattle.std.specs.Result.{result_err};
ghost use Rattle.retro_value.specs.Borrowed.{value_data};
ghost use Rattle.retro_log.specs.Document.{line_number_in};
ghost use Rattle.casebook_check.specs.Place.{IsPlaceIn, version_read};

use crate::key::Key;
use crate::kind::Kind;
use crate::members::member_at;
use crate::place::Place;
use json::Value;
use retro_json::{Part, Refusal};
use retro_log::line_number;
use retro_value::unsigned_in;

/// Returns the refusal of a version's number in a document of a kind, if it is refused.
fn version_refusal(kind: Kind, value: &Value<'_>) -> Option<Refusal>
    ensures { result ≡ result_err (version_read kind (value_data value.now)) }
{
    match (kind, unsigned_in(value)) {
        (_, None) => Some(Refusal::WrongShape(Part::Version)),
        (_, Some(1)) | (Kind::Log, Some(2)) => None,
        _ => Some(Refusal::BadVersion),
    }
}

/// Returns whether the number of a version is refused for a given reason.
#[tactic(auto, using(crate::proofs::Lists::refusal_is))]
fn is_version_refused(kind: Kind, value: &Value<'_>, refusal: Refusal) -> bool
    ensures { IsTrue result → version_read kind (value_data value.now) ≡ Err refusal }
{
    version_refusal(kind, value) == Some(refusal)
}

/// Returns whether the number of a line is refused for a given reason.
#[tactic(auto, using(crate::proofs::Lists::refusal_is))]
fn is_number_refused(value: &Value<'_>, refusal: Refusal) -> bool
    ensures { IsTrue result → line_number_in (value_data value.now) ≡ Err refusal }
{
    line_number(value).err() == Some(refusal)
}

/// Returns the place of a version or of the first line's number.
pub(crate) fn version_place(kind: Kind, value: &Value<'_>, refusal: Refusal) -> Place
    ensures { IsPlaceIn kind (value_data value.now) refusal result }
{
    if let Some(version) = member_at(value, kind.version_key()) {
        if is_version_refused(kind, version, refusal) {
            return Place::Value(kind.version_key());
        }
    }
    if let Some(from) = member_at(value, Key::From) {
        if is_number_refused(from, refusal) {
            return Place::Value(Key::From);
        }
    }
    Place::Document
}
