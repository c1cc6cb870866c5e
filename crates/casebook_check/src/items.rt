//! Items of lists that are refused by themselves.
ghost use Rattle.std.specs.Prelude.{◌≡◌, ◌+◌, ◌<◌, ◌↔◌, IfOk, IfSome, IsTrue, Some, length, map};
ghost use Rattle.retro_value.specs.Borrowed.{value_data};
ghost use Rattle.casebook_check.specs.Items.{IsFirst, item_refusal, line_refusal, number_in};
ghost use Rattle.casebook_check.specs.Items.{session_refusal};
ghost use Rattle.casebook_check.specs.Place.{item_at};

use crate::NoMem;
use crate::key::Key;
use crate::kind::Kind;
use crate::place::Item;
use json::Value;
use retro_json::{Part, Refusal, cells, read_session_row, read_tree_row, u32_in};
use retro_log::{read_log_line, read_script_line};
use std::alloc::Global;

/// Returns the number in a place of an item, if the item is a list and has a number of 32 bits
/// there.
#[tactic(auto, unfolding(crate::specs::Items::number_in))]
pub(crate) fn number_in(place: usize, item: &Value<'_>) -> Option<u32>
    ensures { result ≡ number_in place (value_data item.now) }
{
    match cells(Part::Lines, item) {
        Ok(cells) => match cells.get(place) {
            Some(cell) => u32_in(Part::Lines, cell).ok(),
            None => None,
        },
        Err(_) => None,
    }
}

/// Returns the item at an index of the list at a key, as a place.
pub(crate) fn item_at(key: Key, items: &[Value<'_>], index: usize) -> Item
    requires { index < length items.now }
    ensures { result ≡ item_at key (map value_data items.now) index }
{
    let number = match key {
        Key::Lines => number_in(0, &items[index]),
        _ => None,
    };
    Item {
        key,
        position: index + 1,
        number,
    }
}

/// Returns why a row of the sessions is refused, if it is.
fn session_refusal(alloc: Global, item: &Value<'_>) -> Result<Option<Refusal>, NoMem>
    ensures { IfOk result (λ found. found ≡ session_refusal (value_data item.now)) }
{
    match read_session_row(alloc, item)? {
        Ok(row) => Ok(row.session.err()),
        Err(refusal) => Ok(Some(refusal)),
    }
}

/// Returns why a line is refused, if it is.
fn line_refusal(alloc: Global, kind: Kind, item: &Value<'_>) -> Result<Option<Refusal>, NoMem>
    ensures { IfOk result (λ found. found ≡ line_refusal kind (value_data item.now)) }
{
    match kind {
        Kind::Script => Ok(read_script_line(alloc, item)?.err()),
        Kind::Log => Ok(read_log_line(alloc, item)?.err()),
    }
}

/// Returns why an item of the list at a key is refused, if it is.
fn item_refusal(
    alloc: Global,
    kind: Kind,
    key: Key,
    item: &Value<'_>,
) -> Result<Option<Refusal>, NoMem>
    ensures { IfOk result (λ found. found ≡ item_refusal kind key (value_data item.now)) }
{
    match key {
        Key::Tree => Ok(read_tree_row(alloc, item)?.err()),
        Key::Sessions => session_refusal(alloc, item),
        Key::Lines => line_refusal(alloc, kind, item),
        _ => Ok(None),
    }
}

/// Returns whether an item is refused for a given reason.
fn is_refused(
    alloc: Global,
    kind: Kind,
    key: Key,
    item: &Value<'_>,
    refusal: Refusal,
) -> Result<bool, NoMem>
    ensures { IfOk result (λ refused.
        IsTrue refused ↔ (item_refusal kind key (value_data item.now) ≡ Some refusal)) }
{
    Ok(item_refusal(alloc, kind, key, item)? == Some(refusal))
}

/// Returns the index of the first item of the list at a key that is refused for a given reason.
pub(crate) fn first_refused(
    alloc: Global,
    kind: Kind,
    key: Key,
    items: &[Value<'_>],
    refusal: Refusal,
) -> Result<Option<usize>, NoMem>
    ensures first { IfOk result (λ found. IfSome found (λ index.
        IsFirst (λ one. item_refusal kind key one ≡ Some refusal) (map value_data items.now) index)) }
    ensures within { IfOk result (λ found. IfSome found (λ index. index < length items.now)) }
{
    for (index, item) in items.iter().enumerate() {
        let refused = is_refused(alloc, kind, key, item, refusal)?;
        if refused {
            return Ok(Some(index));
        }
    }
    Ok(None)
}
