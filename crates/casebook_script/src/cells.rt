//! The cells of a row, and numbers in cells.
ghost use Rattle.std.specs.Prelude.{◌≡◌, ◌==◌, ◌<◌, IfOk, map, option_map};
ghost use Rattle.std.specs.List.{slice_split};
ghost use Rattle.retro_text.specs.Ascii.{tab};
ghost use Rattle.casebook_script.specs.Cells.{after_char, cells_of, cut_at, escape_in};
ghost use Rattle.casebook_script.specs.Cells.{has_leading_zero, number_of, text_of};
ghost use Rattle.casebook_script.specs.Steps.{each};
ghost use Rattle.casebook_script.specs.inner.RowReads.{ReadsRow};

use crate::NoMem;
use crate::fault::RowFault;
use crate::row_error::RowError;
use retro_path::Text;
use std::alloc::Global;

/// The first digit of a number that has leading zeros.
const ZERO: u8 = b'0';

/// Returns what a text is after a character that it begins with.
fn after_char<'t>(c: char, text: &'t str) -> Option<&'t str>
    requires { c < 128 }
    ensures { option_map (λ rest. rest.now) result ≡ after_char c text.now }
{
    text.strip_prefix(c)
}

/// Returns the texts before and after the first such character, if there is one.
pub(crate) fn cut_at<'t>(c: char, text: &'t str) -> Option<(&'t str, &'t str)>
    requires { c < 128 }
    ensures { option_map (λ cut. (cut.0.now, cut.1.now)) result ≡ cut_at c text.now }
{
    text.split_once(c)
}

/// Reads what follows a backslash. Returns the text that the escape stands for, and the rest.
fn escape_in<'t>(text: &'t str) -> Option<(&'t str, &'t str)>
    ensures { option_map (λ read. (read.0.now, read.1.now)) result ≡ escape_in text.now }
{
    if let Some(rest) = after_char('t', text) {
        return Some(("\t", rest));
    }
    if let Some(rest) = after_char('n', text) {
        return Some(("\n", rest));
    }
    if let Some(rest) = after_char('r', text) {
        return Some(("\r", rest));
    }
    match after_char('\\', text) {
        Some(rest) => Some(("\\", rest)),
        None => None,
    }
}

/// Returns the text that a cell stands for.
fn text_of(alloc: Global, cell: &str) -> Result<Text, RowError>
    ensures { ReadsRow (λ text. text) result (text_of cell.now) }
{
    let mut text = String::new(alloc);
    let mut rest = cell;
    'escapes: while let Some((plain, after)) = cut_at('\\', rest) {
        let Some((escaped, more)) = escape_in(after) else {
            return Err(RowError::Fault(RowFault::Escape));
        };
        text.push_str(plain)?;
        text.push_str(escaped)?;
        rest = more;
    }
    text.push_str(rest)?;
    Ok(Text::of(text))
}

/// Splits a row at its tabs. Returns the parts, empty ones too.
fn split_row(alloc: Global, row: &str) -> Result<Vec<&str>, NoMem>
    ensures { IfOk result (λ cells.
        map (λ cell. cell.now) cells.items ≡ slice_split (λ b. b == tab) row.now) }
{
    row.split('\t').collect(alloc)
}

/// Returns the texts of cells.
fn texts_of(alloc: Global, cells: &[&str]) -> Result<Vec<Text>, RowError>
    ensures { ReadsRow (λ texts. map (λ text. text) texts.items) result
        (each text_of (map (λ cell. cell.now) cells.now)) }
{
    let mut texts = Vec::new(alloc);
    for cell in cells {
        texts.push(text_of(alloc, cell)?)?;
    }
    Ok(texts)
}

/// Returns the texts of the cells of a row.
pub(crate) fn cells_of(alloc: Global, row: &str) -> Result<Vec<Text>, RowError>
    ensures { ReadsRow (λ texts. map (λ text. text) texts.items) result (cells_of row.now) }
{
    let cells = split_row(alloc, row)?;
    texts_of(alloc, cells.as_slice())
}

/// Returns whether a text has two characters or more, of which the first is a zero.
fn has_leading_zero(text: &str) -> bool
    ensures { result ≡ has_leading_zero text.now }
{
    match text.as_bytes() {
        [first, _, ..] => *first == ZERO,
        _ => false,
    }
}

/// Returns the decimal number that a text is, if it has 32 bits and no leading zero.
pub(crate) fn number_of(text: &str) -> Option<u32>
    ensures { result ≡ number_of text.now }
{
    if has_leading_zero(text) {
        return None;
    }
    retro_text::number_of(text)
}
