//! Rows of lines as text.
ghost use Rattle.std.specs.Prelude.{◌≡◌, IfOk, map, string_bytes};
ghost use Rattle.casebook_view.specs.Rows.{row_value};
ghost use Rattle.casebook_cli.specs.Harmless.{IsHarmless};
ghost use Rattle.casebook_cli.specs.Lines.{IsRowsText, IsShownText, numbers_text, table_text};

use crate::NoMem;
use crate::plain::{plain_line, plain_lines, plain_rows};
use casebook_about::Labels;
use casebook_request::Format;
use casebook_screen::{Names, row_lines, row_numbers, row_table};
use casebook_text::list_of_numbers;
use casebook_view::LineRow;
use retro_keep::Noted;
use std::alloc::Global;

/// Returns the width of the widest name of a session of these lines.
pub(crate) fn widest_name(
    alloc: Global,
    labels: &Labels,
    lines: &[(u32, Noted)],
) -> Result<usize, NoMem> {
    let mut width = 0_usize;
    for line in lines {
        width = width.max(labels.name_of(alloc, line.1.sid)?.width());
    }
    Ok(width)
}

/// Returns rows as the lines that a terminal shows.
fn shown_text(alloc: Global, rows: &[LineRow<'_>], names: Names<'_>) -> Result<String, NoMem>
    ensures value { IfOk result (λ text. IsShownText names.entry.labels.now
        (map row_value rows.now) (string_bytes text)) }
    ensures harmless { IfOk result (λ text. IsHarmless (string_bytes text)) }
{
    let lines = row_lines(alloc, rows, names)?;
    plain_lines(alloc, lines.as_slice())
}

/// Returns rows as a table.
#[tactic(auto, using(crate::proofs::RowLemmas::table_rows))]
fn table_text(alloc: Global, rows: &[LineRow<'_>], labels: &Labels) -> Result<String, NoMem>
    ensures value { IfOk result (λ text. string_bytes text
        ≡ table_text labels.now (map row_value rows.now)) }
    ensures harmless { IfOk result (λ text. IsHarmless (string_bytes text)) }
{
    let table = row_table(alloc, rows, labels)?;
    plain_rows(alloc, table.as_slice())
}

/// Returns the numbers of rows as a list in one line.
fn numbers_text(alloc: Global, rows: &[LineRow<'_>]) -> Result<String, NoMem>
    ensures value { IfOk result (λ text.
        string_bytes text ≡ numbers_text (map row_value rows.now)) }
    ensures harmless { IfOk result (λ text. IsHarmless (string_bytes text)) }
{
    let numbers = row_numbers(alloc, rows)?;
    plain_line(alloc, list_of_numbers(alloc, numbers.as_slice())?)
}

/// Returns rows in a format.
pub(crate) fn rows_text(
    alloc: Global,
    rows: &[LineRow<'_>],
    names: Names<'_>,
    format: Format,
) -> Result<String, NoMem>
    ensures value { IfOk result (λ text. IsRowsText format names.entry.labels.now
        (map row_value rows.now) (string_bytes text)) }
    ensures harmless { IfOk result (λ text. IsHarmless (string_bytes text)) }
{
    match format {
        Format::Text => shown_text(alloc, rows, names),
        Format::Tsv => table_text(alloc, rows, names.labels),
        Format::Numbers => numbers_text(alloc, rows),
    }
}
