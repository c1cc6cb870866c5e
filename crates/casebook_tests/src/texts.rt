//! Safe display, HTML, lines and lists.
use casebook_text::{
    Breaks, ListFault, SafeLine, lines_of_list, list_of_numbers, safe, text_of_lines, text_of_rows,
};
use hex::decode;
use retro_rows::{numbered, text};
use std::alloc::{AllocError, Global};
use std::test::Fail;

/// The numbers and sessions of the lines that there are.
const LINES: [(u32, u32); 9] = [
    (5, 1),
    (7, 2),
    (41, 5),
    (44, 5),
    (90, 3),
    (92, 5),
    (98, 3),
    (227, 5),
    (4294967295, 6),
];

/// Returns bytes in hexadecimal digits as they are shown.
pub fn shown(alloc: Global, digits: &str, breaks: Breaks) -> Result<String, Fail> {
    let bytes = decode(alloc, digits)?;
    Ok(safe(alloc, bytes.as_slice(), breaks)?)
}

/// Returns a line with each kind of piece.
fn each_piece(alloc: Global, bytes: &[u8]) -> Result<SafeLine, AllocError> {
    let mut line = SafeLine::new(alloc);
    line.push_number(alloc, 18446744073709551615)?;
    line.push_spaces(2)?;
    line.push_bytes(alloc, bytes)?;
    line.push_ascii("|")?;
    line.push_word(alloc, bytes)?;
    line.push_remark("no newline")?;
    line.push_ellipsis()?;
    Ok(line)
}

/// Returns the text of a line with each kind of piece, of which two are bytes in hexadecimal
/// digits.
pub fn line(alloc: Global, digits: &str) -> Result<String, Fail> {
    let bytes = decode(alloc, digits)?;
    Ok(text(alloc, each_piece(alloc, bytes.as_slice())?.as_str())?)
}

/// Returns the width of a line, and that of this line twice.
fn widths_of(alloc: Global, line: &SafeLine) -> Result<String, AllocError> {
    let mut twice = SafeLine::new(alloc);
    twice.push_line(line)?;
    twice.push_line(line)?;
    format!(in alloc; "{} {}", line.width(), twice.width())
}

/// Returns the width of a line with each kind of piece, and that of this line twice.
pub fn widths(alloc: Global, digits: &str) -> Result<String, Fail> {
    let bytes = decode(alloc, digits)?;
    Ok(widths_of(alloc, &each_piece(alloc, bytes.as_slice())?)?)
}

/// Returns a text as a line.
fn line_of(alloc: Global, given: &str) -> Result<SafeLine, AllocError> {
    let mut line = SafeLine::new(alloc);
    line.push_bytes(alloc, given.as_bytes())?;
    Ok(line)
}

/// Returns the parts of a text between bars as lines. The empty text has no parts.
fn parts_of(alloc: Global, given: &str) -> Result<Vec<SafeLine>, AllocError> {
    let mut parts = Vec::new(alloc);
    if !given.is_empty() {
        for part in given.split('|') {
            parts.push(line_of(alloc, part)?)?;
        }
    }
    Ok(parts)
}

/// Returns the text of the lines between bars.
pub fn lines(alloc: Global, given: &str) -> Result<String, AllocError> {
    let lines = parts_of(alloc, given)?;
    text_of_lines(alloc, lines.as_slice())
}

/// Returns the text of rows, each with fields between bars.
pub fn fields(alloc: Global, given: &[String]) -> Result<String, AllocError> {
    let mut rows = Vec::new(alloc);
    for row in given {
        rows.push(parts_of(alloc, row)?)?;
    }
    text_of_rows(alloc, rows.as_slice())
}

/// Returns numbers with spaces between them.
fn numbers_text(alloc: Global, numbers: &[u32]) -> Result<String, AllocError> {
    let mut text = String::new(alloc);
    for number in numbers {
        if !text.is_empty() {
            text.push(' ')?;
        }
        write!(text, "{number}")?;
    }
    Ok(text)
}

/// Returns the numbers that a list names, or why it is refused.
pub fn listed(alloc: Global, list: &str) -> Result<String, AllocError> {
    match lines_of_list(alloc, list, &LINES) {
        Ok(numbers) => numbers_text(alloc, numbers.as_slice()),
        Err(ListFault::NoMem) => Err(AllocError),
        Err(fault) => format!(in alloc; "{fault}"),
    }
}

/// Returns the list of numbers, which spaces separate.
pub fn list_of(alloc: Global, given: &str) -> Result<String, Fail> {
    let mut numbers = Vec::new(alloc);
    for (number, _) in numbered(alloc, given)? {
        numbers.push(number)?;
    }
    Ok(text(alloc, list_of_numbers(alloc, numbers.as_slice())?.as_str())?)
}
