//! Places in words.
ghost use Rattle.std.specs.Prelude.{◌≡◌, ◌++◌, IsTrue, OnOk, codes};
ghost use Rattle.std.specs.List.{list_all};
ghost use Rattle.casebook_text.specs.SafeText.{is_printable};
ghost use Rattle.casebook_check.specs.Keys.{key_name};
ghost use Rattle.casebook_check.specs.Words.{item_words, number_words, place_words};

use crate::NoMem;
use crate::key::Key;
use crate::place::{Item, Place};
use casebook_text::SafeLine;
use casebook_words::push_cut;
use std::alloc::Global;

/// How many bytes of a key are shown.
const KEY_LIMIT: usize = 59;

/// Appends the number of a line, if there is one.
fn push_line_number(alloc: Global, line: &mut SafeLine, number: Option<u32>) -> Result<(), NoMem>
    ensures { OnOk result (line.new ≡ line.old ++ number_words number) }
{
    if let Some(number) = number {
        line.push_ascii(" (line ")?;
        line.push_number(alloc, u64::from(number))?;
        line.push_ascii(")")?;
    }
    Ok(())
}

/// Appends an item of a list.
fn push_item(alloc: Global, line: &mut SafeLine, item: Item) -> Result<(), NoMem>
    ensures { OnOk result (line.new ≡ line.old ++ item_words item) }
{
    line.push_ascii(item.key.name())?;
    line.push_ascii(", item ")?;
    line.push_number(alloc, item.position as u64)?;
    push_line_number(alloc, line, item.number)
}

/// Appends a key between quotes, after words.
fn push_key(line: &mut SafeLine, words: &str, key: Key) -> Result<(), NoMem>
    requires { IsTrue (list_all is_printable words.now) }
    ensures { OnOk result (line.new ≡ line.old ++ words.now ++ key_name key ++ codes "\"") }
{
    line.push_ascii(words)?;
    line.push_ascii(key.name())?;
    line.push_ascii("\"")
}

/// Appends a place: `lines, item 42 (line 57)`, `the value of "tree"`, `no key "lines"`, `the key
/// "foo"`, `byte 812` or `the document`. A long key is cut.
#[tactic(auto, unfolding(crate::specs::Words::place_words))]
pub fn push_place(alloc: Global, line: &mut SafeLine, place: &Place) -> Result<(), NoMem>
    ensures { OnOk result (line.new ≡ line.old ++ place_words place.now) }
{
    match place {
        Place::Document => line.push_ascii("the document"),
        Place::Byte(position) => {
            line.push_ascii("byte ")?;
            line.push_number(alloc, *position as u64)
        }
        Place::OtherKey(key) => {
            line.push_ascii("the key \"")?;
            push_cut(alloc, line, key.bytes(), KEY_LIMIT)?;
            line.push_ascii("\"")
        }
        Place::MissingKey(key) => push_key(line, "no key \"", *key),
        Place::Value(key) => push_key(line, "the value of \"", *key),
        Place::Item(item) => push_item(alloc, line, *item),
    }
}
