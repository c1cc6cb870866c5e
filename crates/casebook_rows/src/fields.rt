//! Rows, and the fields of a row.
ghost use Rattle.std.specs.Prelude.{◌≡◌, ◌==◌, IfOk, map};
ghost use Rattle.std.specs.List.{slice_split};
ghost use Rattle.casebook_rows.specs.Rows.{fields_of, rows_of};

use crate::NoMem;
use std::alloc::Global;

/// Splits bytes at a separator. Returns the parts, empty ones too.
fn split(alloc: Global, bytes: &[u8], separator: u8) -> Result<Vec<&[u8]>, NoMem>
    ensures { IfOk result (λ parts. map (λ part. part.now) parts.items
        ≡ slice_split (λ b. b == separator) bytes.now) }
{
    bytes.split(|byte| *byte == separator).collect(alloc)
}

/// Returns the rows of a text: what is before, between and after its newlines. So the last one is
/// empty if a newline ends the text, and else it is a row that was cut off.
pub fn rows_of(alloc: Global, text: &[u8]) -> Result<Vec<&[u8]>, NoMem>
    ensures { IfOk result (λ rows. map (λ row. row.now) rows.items ≡ rows_of text.now) }
{
    split(alloc, text, b'\n')
}

/// Returns the word and the fields of a row: what is before, between and after its tabs.
pub fn fields_of(alloc: Global, row: &[u8]) -> Result<Vec<&[u8]>, NoMem>
    ensures { IfOk result (λ fields. map (λ field. field.now) fields.items ≡ fields_of row.now) }
{
    split(alloc, row, b'\t')
}
