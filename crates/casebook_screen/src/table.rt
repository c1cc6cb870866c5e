//! Rows as a table.
ghost use Rattle.std.specs.Prelude.{◌≡◌, ◌++◌, IfOk, IsTrue, OnOk, map};
ghost use Rattle.std.specs.List.{list_all};
ghost use Rattle.casebook_text.specs.SafeText.{is_printable};
ghost use Rattle.casebook_screen.specs.Fields.{fields_of, head_fields, read_field};
ghost use Rattle.casebook_screen.specs.Fields.{write_field, write_sign};
ghost use Rattle.casebook_view.specs.Rows.{row_value};
ghost use Rattle.casebook_words.specs.Words.{path_words};

use crate::NoMem;
use crate::lines::{bytes_line, number_line};
use casebook_about::Labels;
use casebook_text::SafeLine;
use casebook_view::{LineRow, PathWrite, WriteKind};
use casebook_words::push_path;
use retro_tree::Path;
use std::alloc::Global;

/// Returns the sign of a kind of write.
fn sign_of(kind: WriteKind) -> &'static str
    ensures value { result.now ≡ write_sign kind }
    ensures printable { IsTrue (list_all is_printable result.now) }
{
    match kind {
        WriteKind::Put => "+",
        WriteKind::Append => ">",
        WriteKind::Remove => "-",
    }
}

/// Returns a path after a sign.
fn signed_path(alloc: Global, sign: &str, path: &Path) -> Result<SafeLine, NoMem>
    requires { IsTrue (list_all is_printable sign.now) }
    ensures { IfOk result (λ field. field ≡ sign.now ++ path_words path.now) }
{
    let mut field = SafeLine::new(alloc);
    field.push_ascii(sign)?;
    push_path(alloc, &mut field, path)?;
    Ok(field)
}

/// Returns the number, the time, the session, its name, the text and the output of a row.
fn first_fields(alloc: Global, row: &LineRow<'_>, labels: &Labels) -> Result<Vec<SafeLine>, NoMem>
    ensures { IfOk result (λ fields.
        fields.items ≡ head_fields labels.now (row_value row.now)) }
{
    let mut fields = Vec::new(alloc);
    fields.push(number_line(alloc, u64::from(row.number))?)?;
    fields.push(labels.time_of(alloc, row.number)?)?;
    fields.push(number_line(alloc, u64::from(row.session))?)?;
    fields.push(labels.name_of(alloc, row.session)?)?;
    fields.push(bytes_line(alloc, row.text.bytes())?)?;
    fields.push(bytes_line(alloc, row.output.as_slice())?)?;
    Ok(fields)
}

/// Appends a field for each path that is read.
fn push_reads(alloc: Global, fields: &mut Vec<SafeLine>, paths: &[Path]) -> Result<(), NoMem>
    ensures { OnOk result (fields.new.items ≡ fields.old.items ++ map read_field paths.now) }
{
    for path in paths {
        fields.push(signed_path(alloc, "=", path)?)?;
    }
    Ok(())
}

/// Returns a write as a field: its sign and its path.
pub(crate) fn write_line(alloc: Global, write: &PathWrite) -> Result<SafeLine, NoMem>
    ensures { IfOk result (λ field. field ≡ write_field write.now) }
{
    signed_path(alloc, sign_of(write.kind), &write.path)
}

/// Appends a field for each write.
fn push_writes(alloc: Global, fields: &mut Vec<SafeLine>, writes: &[PathWrite]) -> Result<(), NoMem>
    ensures { OnOk result (fields.new.items ≡ fields.old.items ++ map write_field writes.now) }
{
    for write in writes {
        fields.push(write_line(alloc, write)?)?;
    }
    Ok(())
}

/// Returns the fields of a row.
fn row_fields(alloc: Global, row: &LineRow<'_>, labels: &Labels) -> Result<Vec<SafeLine>, NoMem>
    ensures { IfOk result (λ fields. fields.items ≡ fields_of labels.now (row_value row.now)) }
{
    let mut fields = first_fields(alloc, row, labels)?;
    push_reads(alloc, &mut fields, row.read.as_slice())?;
    push_writes(alloc, &mut fields, row.wrote.as_slice())?;
    Ok(fields)
}

/// Returns rows as rows of a table. Each has these fields: number, time, session, name of the
/// session, text, output, and then a field for each path that the line read, after `=`, and for
/// each write, after `+` (put), `>` (appended) or `-` (removed). A time that isn't known is empty,
/// and the name of a session without one is its number.
pub fn row_table(
    alloc: Global,
    rows: &[LineRow<'_>],
    labels: &Labels,
) -> Result<Vec<Vec<SafeLine>>, NoMem>
    ensures { IfOk result (λ table. map (λ fields. fields.items) table.items
        ≡ map (λ row. fields_of labels.now (row_value row)) rows.now) }
{
    let mut table = Vec::new(alloc);
    for row in rows {
        table.push(row_fields(alloc, row, labels)?)?;
    }
    Ok(table)
}

/// Returns the numbers of rows, in order.
pub fn row_numbers(alloc: Global, rows: &[LineRow<'_>]) -> Result<Vec<u32>, NoMem>
    ensures { IfOk result (λ numbers. numbers.items ≡ map (λ row. row.number) rows.now) }
{
    rows.iter().map(|row| row.number).collect(alloc)
}
