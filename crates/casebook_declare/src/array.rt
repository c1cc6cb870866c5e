//! The values of arrays.
ghost use Rattle.std.specs.Prelude.{◌≡◌, IfOk, length, option_map, true};
ghost use Rattle.std.specs.Char.{is_ascii_digit};
ghost use Rattle.casebook_declare.specs.Arrays.{after_element, after_key, after_next};
ghost use Rattle.casebook_declare.specs.Arrays.{after_subscript, are_elements, is_array_value};
ghost use Rattle.casebook_declare.specs.Arrays.{is_bare, is_quote, rest_of};
ghost use Rattle.casebook_declare.specs.Quoted.{quoted};
ghost use Rattle.casebook_declare.specs.Parts.{after_all, after_some};

use crate::NoMem;
use crate::parts::after;
use crate::said::quoted;
use crate::unit::is_plain;
use std::alloc::Global;

/// The bytes of which a key without quotes has none.
const MARKS: &[u8; 21] = b" !\"$&'()*;<>?[\\]^`{|}";

/// Returns whether a key without quotes may have a byte.
fn is_bare(byte: u8) -> bool
    ensures { result ≡ is_bare byte }
{
    is_plain(byte) && !MARKS.contains(&byte)
}

/// Returns whether a byte begins a quoted key.
fn is_quote(byte: u8) -> bool
    ensures { result ≡ is_quote byte }
{
    byte == b'"' || byte == b'$'
}

/// Returns what follows the bytes of a bare key.
#[tactic(auto, unfolding(crate::specs::Parts::after_all))]
fn after_bare<'t>(text: &'t [u8]) -> &'t [u8]
    ensures { result.now ≡ after_all is_bare text.now }
{
    let mut rest = text;
    while let [first, more @ ..] = rest {
        if !is_bare(*first) {
            return rest;
        }
        rest = more;
    }
    rest
}

/// Returns what follows digits.
#[tactic(auto, unfolding(crate::specs::Parts::after_all))]
fn after_digits<'t>(text: &'t [u8]) -> &'t [u8]
    ensures { result.now ≡ after_all is_ascii_digit text.now }
{
    let mut rest = text;
    while let [first, more @ ..] = rest {
        if !first.is_ascii_digit() {
            return rest;
        }
        rest = more;
    }
    rest
}

/// Returns what follows an index: digits, one at least.
#[tactic(auto, unfolding(crate::specs::Parts::after_some))]
fn after_index<'t>(text: &'t [u8]) -> Option<&'t [u8]>
    ensures { option_map (λ rest. rest.now) result ≡ after_some is_ascii_digit text.now }
{
    match text {
        [first, rest @ ..] if first.is_ascii_digit() => Some(after_digits(rest)),
        _ => None,
    }
}

/// Returns what follows a quoted value.
fn after_quoted<'t>(alloc: Global, text: &'t [u8]) -> Result<Option<&'t [u8]>, NoMem>
    ensures { IfOk result (λ rest. option_map (λ r. r.now) rest
        ≡ option_map rest_of (quoted text.now)) }
{
    Ok(quoted(alloc, text)?.map(|said| said.rest))
}

/// Returns what follows a key.
#[tactic(auto, unfolding(crate::specs::Parts::after_some))]
fn after_key<'t>(alloc: Global, text: &'t [u8]) -> Result<Option<&'t [u8]>, NoMem>
    ensures { IfOk result (λ rest. option_map (λ r. r.now) rest ≡ after_key text.now) }
{
    match text {
        [first, ..] if is_quote(*first) => after_quoted(alloc, text),
        [first, rest @ ..] if is_bare(*first) => Ok(Some(after_bare(rest))),
        _ => Ok(None),
    }
}

/// Returns what follows an index or a key.
#[tactic(auto, unfolding(crate::specs::Arrays::after_subscript))]
fn after_subscript<'t>(
    alloc: Global,
    is_keyed: bool,
    text: &'t [u8],
) -> Result<Option<&'t [u8]>, NoMem>
    ensures { IfOk result (λ rest. option_map (λ r. r.now) rest
        ≡ after_subscript is_keyed text.now) }
{
    if is_keyed {
        after_key(alloc, text)
    } else {
        Ok(after_index(text))
    }
}

/// Returns what follows an element.
#[tactic(auto, unfolding(crate::specs::Arrays::after_element))]
fn after_element<'t>(
    alloc: Global,
    is_keyed: bool,
    text: &'t [u8],
) -> Result<Option<&'t [u8]>, NoMem>
    ensures { IfOk result (λ rest. option_map (λ r. r.now) rest ≡ after_element is_keyed text.now) }
{
    let Some(subscript) = after(b"[".as_slice(), text) else {
        return Ok(None);
    };
    let Some(rest) = after_subscript(alloc, is_keyed, subscript)? else {
        return Ok(None);
    };
    match after(b"]=".as_slice(), rest) {
        Some(value) => after_quoted(alloc, value),
        None => Ok(None),
    }
}

/// Returns what follows the next element and its blank.
#[tactic(auto, unfolding(crate::specs::Arrays::after_next))]
fn after_next<'t>(
    alloc: Global,
    is_keyed: bool,
    is_first: bool,
    text: &'t [u8],
) -> Result<Option<&'t [u8]>, NoMem>
    ensures { IfOk result (λ rest. option_map (λ r. r.now) rest
        ≡ after_next is_keyed is_first text.now) }
{
    if is_keyed {
        let Some(rest) = after_element(alloc, true, text)? else {
            return Ok(None);
        };
        return Ok(after(b" ".as_slice(), rest));
    }
    if is_first {
        return after_element(alloc, false, text);
    }
    match after(b" ".as_slice(), text) {
        Some(element) => after_element(alloc, false, element),
        None => Ok(None),
    }
}

/// Returns whether a text is elements and then a parenthesis.
fn are_elements(alloc: Global, is_keyed: bool, text: &[u8]) -> Result<bool, NoMem>
    ensures { IfOk result (λ found. found ≡ are_elements is_keyed true (length text.now) text.now) }
{
    let mut rest = text;
    let mut is_first = true;
    // An element has a byte at least.
    for _ in text {
        if rest == b")".as_slice() {
            return Ok(true);
        }
        let Some(more) = after_next(alloc, is_keyed, is_first, rest)? else {
            return Ok(false);
        };
        rest = more;
        is_first = false;
    }
    Ok(false)
}

/// Returns whether a text is the value of an array.
#[tactic(auto, unfolding(crate::specs::Arrays::is_array_value))]
pub(crate) fn is_array_value(alloc: Global, is_keyed: bool, text: &[u8]) -> Result<bool, NoMem>
    ensures { IfOk result (λ found. found ≡ is_array_value is_keyed text.now) }
{
    match after(b"(".as_slice(), text) {
        Some(elements) => are_elements(alloc, is_keyed, elements),
        None => Ok(false),
    }
}
