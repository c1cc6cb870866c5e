//! Texts that do no harm on a terminal.
ghost use Rattle.std.specs.Prelude.{◌≡◌, ◌∷◌, [], IfOk, map, string_bytes};
ghost use Rattle.casebook_text.specs.SafeLine.{text_of_lines, text_of_rows};
ghost use Rattle.casebook_cli.specs.Harmless.{IsHarmless};

use crate::NoMem;
use casebook_text::{SafeLine, text_of_lines, text_of_rows};
use std::alloc::Global;

/// Returns lines as a text, with a newline after each.
pub(crate) fn plain_lines(alloc: Global, lines: &[SafeLine]) -> Result<String, NoMem>
    ensures value { IfOk result (λ text. string_bytes text ≡ text_of_lines lines.now) }
    ensures harmless { IfOk result (λ text. IsHarmless (string_bytes text)) }
{
    text_of_lines(alloc, lines)
}

/// Returns a line as a text, with a newline after it.
pub(crate) fn plain_line(alloc: Global, line: SafeLine) -> Result<String, NoMem>
    ensures value { IfOk result (λ text. string_bytes text ≡ text_of_lines (line ∷ [])) }
    ensures harmless { IfOk result (λ text. IsHarmless (string_bytes text)) }
{
    let mut lines = Vec::new(alloc);
    lines.push(line)?;
    plain_lines(alloc, lines.as_slice())
}

/// Returns rows of fields as a text, with a tab between fields and a newline after each row.
pub(crate) fn plain_rows(alloc: Global, rows: &[Vec<SafeLine>]) -> Result<String, NoMem>
    ensures value { IfOk result (λ text.
        string_bytes text ≡ text_of_rows (map (λ row. row.items) rows.now)) }
    ensures harmless { IfOk result (λ text. IsHarmless (string_bytes text)) }
{
    text_of_rows(alloc, rows)
}
