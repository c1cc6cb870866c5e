//! Reads JSON values of one shape. `part` is the part of the document that a wrong shape names.
ghost use Rattle.std.specs.Prelude.{◌≡◌, ◌<◌, IfOk, map};
ghost use Rattle.retro_value.specs.Borrowed.{value_data};
ghost use Rattle.retro_json.specs.ReadsAs.{seen};
ghost use Rattle.retro_json.specs.Shape.{cells, text_in, number_in, u32_in, u8_in};

use crate::fault::{Part, Refusal};
use crate::reading::worst::OrRefusal;
use json::Value;
use retro_value::{items_in, text_in, unsigned_in};

/// Returns the items of an array. Refuses any other value.
pub fn cells<'v, 'a>(part: Part, value: &'v Value<'a>) -> OrRefusal<&'v [Value<'a>]>
    ensures { seen (λ items. map value_data items.now) result ≡ cells part (value_data value.now) }
{
    match items_in(value) {
        Some(items) => Ok(items),
        None => Err(Refusal::WrongShape(part)),
    }
}

/// Returns the text of a string. Refuses any other value.
pub fn text<'a>(part: Part, value: &Value<'a>) -> OrRefusal<&'a str>
    ensures { seen (λ text. text.now) result ≡ text_in part (value_data value.now) }
{
    match text_in(value) {
        Some(text) => Ok(text),
        None => Err(Refusal::WrongShape(part)),
    }
}

/// Returns a whole number below `limit`. Refuses any other value.
fn number(part: Part, limit: u64, value: &Value<'_>) -> OrRefusal<u64>
    ensures value { result ≡ number_in part limit (value_data value.now) }
    ensures range { IfOk result (λ n. n < limit) }
{
    match unsigned_in(value) {
        Some(n) if n < limit => Ok(n),
        _ => Err(Refusal::WrongShape(part)),
    }
}

/// Returns a whole number below 2^32. Refuses any other value.
pub fn u32_in(part: Part, value: &Value<'_>) -> OrRefusal<u32>
    ensures { result ≡ u32_in part (value_data value.now) }
{
    Ok(number(part, 1 << u32::BITS, value)? as u32)
}

/// Returns a whole number below 2^8. Refuses any other value.
pub fn u8_in(part: Part, value: &Value<'_>) -> OrRefusal<u8>
    ensures { result ≡ u8_in part (value_data value.now) }
{
    Ok(number(part, 1 << u8::BITS, value)? as u8)
}
