//! Tables that are safe to show.
ghost use Rattle.std.specs.Prelude.{◌≡◌, ◌==◌, ◌<◌, ◌++◌, ◌∷◌, [], IfOk, IsTrue, OnOk, length};
ghost use Rattle.std.specs.Prelude.{chars, map, string_bytes, if◌then◌else◌};
ghost use Rattle.std.specs.List.{list_all, slice_split};
ghost use Rattle.casebook_text.specs.SafeText.{is_safe, is_safe_byte};
ghost use Rattle.casebook_text.specs.SafeLine.{AreSplit, line_end, row_of_fields, tab_stop};
ghost use Rattle.casebook_text.specs.SafeLine.{IsSafeLine, text_of_rows};
ghost use Rattle.casebook_text.specs.inner.Row.{AllSafe, IsRow};
ghost use Rattle.casebook_text.specs.declared.safe_text.Breaks.TheVariants.{Keep};

use crate::NoMem;
use crate::safe_line::SafeLine;
use std::alloc::Global;

/// Appends the field at an index, after a tab if it isn't the first.
fn push_field(text: &mut String, index: usize, field: &SafeLine) -> Result<(), NoMem>
    ensures value { OnOk result (string_bytes text.new ≡ string_bytes text.old
        ++ (if index == 0 then field.now else tab_stop ∷ field.now)) }
    ensures safe { OnOk result (IsSafeLine field.now) }
{
    if index > 0 {
        text.push('\t')?;
    }
    text.push_str(field.as_str())
}

/// Appends fields with tabs between them.
fn push_fields(text: &mut String, fields: &[SafeLine]) -> Result<(), NoMem>
    ensures value { OnOk result (string_bytes text.new
        ≡ string_bytes text.old ++ row_of_fields fields.now) }
    ensures row { OnOk result (IsRow (row_of_fields fields.now)) }
    ensures split { OnOk result (0 < length fields.now
        → slice_split (λ b. b == tab_stop) (row_of_fields fields.now) ≡ fields.now) }
{
    for (index, field) in fields.iter().enumerate() {
        push_field(text, index, field)?;
    }
    Ok(())
}

/// Returns a table as text: rows of fields, with a tab between fields and a newline after each row.
pub fn text_of_rows(alloc: Global, rows: &[Vec<SafeLine>]) -> Result<String, NoMem>
    ensures value { IfOk result (λ text.
        string_bytes text ≡ text_of_rows (map (λ row. row.items) rows.now)) }

    // Each character is harmless, a newline or a tab.
    ensures characters { IfOk result (λ text.
        IsTrue (list_all (is_safe Keep) (chars (string_bytes text)))) }

    // No byte is a control code of ASCII, but for newlines and tabs.
    ensures bytes { IfOk result (λ text.
        IsTrue (list_all (is_safe_byte Keep) (string_bytes text))) }

    // Newlines are at the ends of these rows alone, and tabs between their fields alone.
    ensures rows { IfOk result (λ text. slice_split (λ b. b == line_end) (string_bytes text)
        ≡ map (λ row. row_of_fields row.items) rows.now ++ [] ∷ []) }
    ensures fields { IfOk result (λ text. AreSplit (map (λ row. row.items) rows.now)) }
{
    let mut text = String::new(alloc);
    for fields in rows {
        push_fields(&mut text, fields.as_slice())?;
        text.push('\n')?;
    }
    Ok(text)
}
