//! Lists of lines.
ghost use Rattle.std.specs.Prelude.{◌≡◌, List, IfOk, map};
ghost use Rattle.casebook_text.specs.Item.{Line};
ghost use Rattle.casebook_text.specs.Lists.{checked_item, checked_items};
ghost use Rattle.casebook_text.specs.Lists.{lines_of_list, no_lines, texts_in};
ghost use Rattle.casebook_text.specs.Lists.{IsUnlessNoMem};
ghost use Rattle.casebook_text.specs.inner.LineSets.{AreAll, IsBoth};

use crate::NoMem;
use crate::chosen_lines::chosen;
use crate::item::{Item, Lines};
use crate::line_set::LineSet;
use crate::list_fault::{ItemFault, ListFault};
use crate::splitting::split_at;
use std::alloc::Global;

/// Returns the texts of a list's items. An empty list has none.
#[tactic(auto, unfolding(crate::specs::Lists::texts_in))]
fn texts_in(alloc: Global, text: &str) -> Result<Vec<&str>, NoMem>
    ensures { IfOk result (λ v. map (λ s. s.now) v.items ≡ texts_in text.now) }
{
    if text.is_empty() {
        return Ok(Vec::new(alloc));
    }
    split_at(alloc, text, ',')
}

/// Returns why an item is refused if no line is one of its lines.
fn no_lines(lines: Lines) -> ItemFault
    ensures { result ≡ no_lines lines }
{
    match lines {
        Lines::One(number) => ItemFault::NoLine(number),
        Lines::Range(first, last) => ItemFault::EmptyRange(first, last),
        Lines::Session(session) => ItemFault::EmptySession(session),
    }
}

/// Reads an item of a list over all lines, or returns why it is refused.
#[tactic(auto, unfolding(crate::specs::Lists::checked_item))]
fn checked_item(text: &str, all: &LineSet) -> Result<Item, ItemFault>
    requires { IsBoth all.now }
    ensures { (lines : List Line) → AreAll lines all.now
        → result ≡ checked_item lines text.now }
{
    let Some(item) = Item::of(text) else {
        return Err(ItemFault::NotAnItem);
    };
    if all.has_any(item.lines) {
        Ok(item)
    } else {
        Err(no_lines(item.lines))
    }
}

/// Reads the items of a list over all lines, or returns the first fault.
fn checked_items(alloc: Global, texts: &[&str], all: &LineSet) -> Result<Vec<Item>, ListFault>
    requires { IsBoth all.now }
    ensures { (lines : List Line) → AreAll lines all.now
        → IsUnlessNoMem (λ v. v.items) result
        (checked_items lines 1 (map (λ s. s.now) texts.now)) }
{
    let mut items = Vec::with_capacity(alloc, texts.len())?;
    for (index, text) in texts.iter().enumerate() {
        match checked_item(text, all) {
            Ok(item) => items.push(item)?,
            Err(fault) => {
                return Err(ListFault::BadItem {
                    position: index + 1,
                    fault,
                });
            }
        }
    }
    Ok(items)
}

/// Returns the numbers of the lines that a list names, in the order of `lines`, which are the
/// numbers and sessions of the lines that there are.
///
/// A list is empty, or items with commas between them, which are read from the left. `N` adds the
/// line with this number to the set so far, `N-M` the lines from the first number to the second,
/// and `S:all` the lines of session S; `-N` and `-N-M` take such lines away. Numbers have one to
/// ten decimal digits, and are at most 4,294,967,295. Lines are put in order once, by number and by
/// session. Then each item and each line takes a few look-ups there.
///
/// # Errors
///
/// `BadItem` with the first item that isn't of these forms, or that names no line.
pub fn lines_of_list(alloc: Global, text: &str, lines: &[(u32, u32)]) -> Result<Vec<u32>, ListFault>
    ensures { IsUnlessNoMem (λ v. v.items) result (lines_of_list lines.now text.now) }
{
    let texts = texts_in(alloc, text)?;
    let all = LineSet::of(alloc, lines)?;
    let items = checked_items(alloc, texts.as_slice(), &all)?;
    let numbers = chosen(alloc, items.as_slice(), lines, all)?;
    Ok(numbers)
}
