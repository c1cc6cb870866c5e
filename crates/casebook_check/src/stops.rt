//! Where a text stops to be a JSON value.
use crate::NoMem;
use json::{Reader, Scratch, Token};
use retro_value::{DEPTH, is_number_in_range};
use std::alloc::Global;

/// A part of a document that has begun and hasn't ended.
#[derive(Clone, Copy, Debug, PartialEq, Eq)]
enum Part {
    /// The document itself, before its value.
    Document,
    /// An array.
    Array,
    /// An object, where a key or its end may come.
    Object,
    /// An object, after a key.
    Member,
}

/// Returns whether a token may come next in the innermost part that hasn't ended, where this many
/// have begun. A number that is too large for a float may come nowhere.
fn may_come(token: &Token<'_>, part: Option<Part>, count: usize) -> bool {
    match (token, part) {
        (Token::Bad, _) | (_, None) => false,
        (Token::Key(_) | Token::EndObject, _) => part == Some(Part::Object),
        (_, Some(Part::Object)) => false,
        (Token::EndArray, _) => part == Some(Part::Array),
        (Token::BeginArray | Token::BeginObject, _) => count <= DEPTH,
        (Token::Number(text), _) => is_number_in_range(text),
        _ => true,
    }
}

/// Says of the innermost part that a value of it has ended.
fn end_value(parts: &mut Vec<Part>) -> Result<(), NoMem> {
    match parts.last() {
        Some(Part::Document) => {
            parts.pop();
        }
        Some(Part::Member) => {
            parts.pop();
            parts.push(Part::Object)?;
        }
        _ => {}
    }
    Ok(())
}

/// Begins and ends parts as a token says.
fn pass(parts: &mut Vec<Part>, token: &Token<'_>) -> Result<(), NoMem> {
    match token {
        Token::BeginArray => parts.push(Part::Array)?,
        Token::BeginObject => parts.push(Part::Object)?,
        Token::Key(_) => {
            parts.pop();
            parts.push(Part::Member)?;
        }
        Token::EndArray | Token::EndObject => {
            parts.pop();
            end_value(parts)?;
        }
        _ => end_value(parts)?,
    }
    Ok(())
}

/// Returns the offset of the first byte from an offset on that isn't white space of JSON (RFC 8259,
/// section 2), or else the end.
fn after_blanks(text: &str, offset: usize) -> usize {
    let bytes = text.as_bytes();
    for (index, byte) in bytes.iter().enumerate() {
        if index >= offset && !matches!(byte, b' ' | b'\t' | b'\n' | b'\r') {
            return index;
        }
    }
    bytes.len()
}

/// Returns the offset of the first token that no JSON value has there, or the end of a text that is
/// cut off. A number that is too large for a float is such a token.
pub(crate) fn stop_of(alloc: Global, text: &str) -> Result<usize, NoMem> {
    let mut scratch = Scratch::new(alloc);
    let mut reader = Reader::new(text, &mut scratch)?;
    let mut parts = Vec::new(alloc);
    parts.push(Part::Document)?;
    let mut start = reader.offset();
    while let Some(token) = reader.next() {
        if !may_come(&token, parts.last().copied(), parts.len()) {
            break;
        }
        pass(&mut parts, &token)?;
        start = reader.offset();
    }
    Ok(after_blanks(text, start))
}
