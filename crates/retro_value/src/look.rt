//! Looks into a value.
ghost use Rattle.std.specs.Prelude.{◌≡◌, is_some, map, option_map};
ghost use Rattle.serde_json.specs.Find.{as_array, as_null, as_str};
ghost use Rattle.serde_json.specs.View.{items_of};
ghost use Rattle.retro_value.specs.Borrowed.{value_data};

use json::Value;

/// Returns whether a value is `null`.
pub fn is_null(value: &Value<'_>) -> bool
    ensures { result ≡ is_some (as_null (value_data value.now)) }
{
    value.is_null()
}

/// Returns the text of a value, if it is one.
pub fn text_in<'a>(value: &Value<'a>) -> Option<&'a str>
    ensures { option_map (λ text. text.now) result ≡ as_str (value_data value.now) }
{
    value.as_str()
}

/// Returns the items of a value, if it is an array.
pub fn items_in<'v, 'a>(value: &'v Value<'a>) -> Option<&'v [Value<'a>]>
    ensures { option_map (λ items. items_of (map value_data items.now)) result
        ≡ as_array (value_data value.now) }
{
    match value {
        Value::Array(items) => Some(items.as_slice()),
        _ => None,
    }
}
