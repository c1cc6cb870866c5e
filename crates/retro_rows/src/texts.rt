//! Texts and what they stand for.
use crate::failure::fail;
use retro_path::NoMem;
use std::alloc::Global;
use std::test::Fail;

/// Returns a copy of a text.
pub fn text(alloc: Global, text: &str) -> Result<String, NoMem> {
    String::from_str(alloc, text)
}

/// Returns bytes as a text. Fails if they aren't UTF-8.
pub fn utf8(bytes: &[u8]) -> Result<&str, Fail> {
    match str::from_utf8(bytes) {
        Ok(text) => Ok(text),
        Err(_) => fail("not UTF-8"),
    }
}

/// Returns the numbers of a list, which spaces separate.
pub fn numbers(alloc: Global, list: &str) -> Result<Vec<u32>, Fail> {
    let mut numbers = Vec::new(alloc);
    for number in list.split(' ') {
        numbers.push(number.parse()?)?;
    }
    Ok(numbers)
}

/// A number, and the text that a list gives with it, if there is one.
pub type Numbered = (u32, Option<String>);

/// Appends the items of a part of a list: one number with its text, or numbers, which spaces
/// separate.
fn push_part(alloc: Global, items: &mut Vec<Numbered>, part: &str) -> Result<(), Fail> {
    match part.split_once('=') {
        Some((number, given)) => items.push((number.parse()?, Some(text(alloc, given)?)))?,
        None => {
            for number in numbers(alloc, part)? {
                items.push((number, None))?;
            }
        }
    }
    Ok(())
}

/// Returns the items of a list whose parts `, ` separates, as in `5 2, 1=echo a > f, 7`. Each part
/// is a number with a text, or numbers, which spaces separate. The list may be empty.
pub fn numbered(alloc: Global, list: &str) -> Result<Vec<Numbered>, Fail> {
    let mut items = Vec::new(alloc);
    if !list.is_empty() {
        for part in list.split(", ") {
            push_part(alloc, &mut items, part)?;
        }
    }
    Ok(items)
}
