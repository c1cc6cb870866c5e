//! Lines whose numbers don't rise.
ghost use Rattle.std.specs.Prelude.{◌≡◌, ◌<◌, IfSome, length, map};
ghost use Rattle.retro_value.specs.Borrowed.{value_data};
ghost use Rattle.casebook_check.specs.Items.{IsFall};
ghost use Rattle.casebook_check.specs.Place.{least_number};

use crate::items::number_in;
use crate::key::Key;
use crate::members::member_at;
use json::Value;
use retro_log::line_number;

/// Returns the number with which the lines of a document may begin.
pub(crate) fn least_number(value: &Value<'_>) -> u32
    ensures { result ≡ least_number (value_data value.now) }
{
    match member_at(value, Key::From) {
        Some(number) => line_number(number).unwrap_or(1),
        None => 1,
    }
}

/// Returns the index of the first line whose number is below `least`, if it is the first line, and
/// else not above that of the line before it. Returns `None` if there is no such line, or if a line
/// before it has no number.
pub(crate) fn first_fall(least: u32, items: &[Value<'_>]) -> Option<usize>
    ensures first { IfSome result (λ index. IsFall least (map value_data items.now) index) }
    ensures within { IfSome result (λ index. index < length items.now) }
{
    let mut next = u64::from(least);
    for (index, item) in items.iter().enumerate() {
        let number = u64::from(number_in(0, item)?);
        if number < next {
            return Some(index);
        }
        next = number + 1;
    }
    None
}
