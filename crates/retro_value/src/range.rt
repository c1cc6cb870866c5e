//! Tests the numbers of a value.
ghost use Rattle.std.specs.Prelude.{◌≡◌};
ghost use Rattle.json.specs.Value.{items_view, members_view, value_view};
ghost use Rattle.retro_value.specs.Borrowed.{in_range, items_in_range, members_in_range};

use crate::number::is_number_in_range;
use json::Value;

/// Returns whether each number of a value is an integer of 64 bits or a finite float.
#[cycle(in_range)]
pub fn is_in_range(value: &Value<'_>) -> bool
    ensures { result ≡ in_range (value_view value.now) }
{
    match value {
        Value::Null | Value::Bool(_) | Value::String(_) => true,
        Value::Number(text) => is_number_in_range(text),
        Value::Array(items) => are_in_range(items),
        Value::Object(members) => are_members_in_range(members),
    }
}

/// Returns whether each number of some values is in range.
#[cycle(in_range)]
fn are_in_range(items: &Vec<Value<'_>>) -> bool
    ensures { result ≡ items_in_range (items_view items.now.items) }
{
    for item in items {
        if !is_in_range(item) {
            return false;
        }
    }
    true
}

/// Returns whether each number of some members' values is in range.
#[cycle(in_range)]
fn are_members_in_range(members: &Vec<(&str, Value<'_>)>) -> bool
    ensures { result ≡ members_in_range (members_view members.now.items) }
{
    for member in members {
        if !is_in_range(&member.1) {
            return false;
        }
    }
    true
}
