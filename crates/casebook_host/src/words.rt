//! Rows of a table, and the words of a row.
ghost use Rattle.std.specs.Prelude.{◌≡◌, ◌==◌, IfOk, map};
ghost use Rattle.std.specs.List.{slice_split};
ghost use Rattle.retro_path.specs.Ascii.{newline};
ghost use Rattle.casebook_host.specs.Words.{has_bytes, is_blank, rows_of, words_of};

use crate::NoMem;
use std::alloc::Global;

/// Returns whether a byte separates words.
fn is_blank(byte: u8) -> bool
    ensures { result ≡ is_blank byte }
{
    byte == b' ' || byte == b'\t'
}

/// Returns whether a text isn't empty.
fn has_bytes(text: &[u8]) -> bool
    ensures { result ≡ has_bytes text.now }
{
    !text.is_empty()
}

/// Returns the rows of a table: what is before, between and after its newlines.
pub(crate) fn rows_of(alloc: Global, table: &[u8]) -> Result<Vec<&[u8]>, NoMem>
    ensures { IfOk result (λ rows. map (λ row. row.now) rows.items ≡ rows_of table.now) }
{
    table.split(|byte| *byte == b'\n').collect(alloc)
}

/// Returns the words of a row. None is empty.
pub(crate) fn words_of(alloc: Global, row: &[u8]) -> Result<Vec<&[u8]>, NoMem>
    ensures { IfOk result (λ words. map (λ word. word.now) words.items ≡ words_of row.now) }
{
    row.split(|byte| is_blank(*byte))
        .filter(|word| has_bytes(word))
        .collect(alloc)
}
