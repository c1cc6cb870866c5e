//! Writes undo files.
ghost use Rattle.std.specs.Prelude.{◌≡◌, Err, IfOk, Ok, OnOk, false, true};
ghost use Rattle.std.specs.List.{list_all};
ghost use Rattle.casebook_undo.specs.Documents.{has_mode, is_writable, is_writable_row};
ghost use Rattle.casebook_undo.specs.Documents.{undo_text};
ghost use Rattle.casebook_undo.specs.Reading.{undo_in, undo_view};
ghost use Rattle.casebook_undo.specs.declared.write_fault.WriteFault.TheVariants.{Unwritable};

use crate::limits::MODE_LIMIT;
use crate::values::undo_value;
use crate::write_fault::WriteFault;
use casebook_folder::{Attributes, Found, Row, Rows};
use retro_path::Path;
use std::alloc::Global;

/// Returns whether a mode is at most [`MODE_LIMIT`].
fn has_mode(attributes: &Attributes) -> bool
    ensures { result ≡ has_mode attributes.now }
{
    attributes.mode <= MODE_LIMIT
}

/// Returns whether an undo file can say that a path holds this.
fn is_writable(found: &Found) -> bool
    ensures { result ≡ is_writable found.now }
{
    match found {
        Found::Missing => true,
        Found::Dir(attributes) | Found::File(_, attributes) => has_mode(attributes),
        Found::Blocked(_) => false,
    }
}

/// Returns whether all rows can be written.
fn are_writable(rows: &[Row]) -> bool
    ensures { result ≡ list_all is_writable_row rows.now }
{
    for row in rows {
        if !(is_writable(&row.before) && is_writable(&row.after)) {
            return false;
        }
    }
    true
}

/// Returns the undo file of rows, of version 1: compact JSON (RFC 8259) with keys in byte order,
/// and a newline. `at` is the path of the folder in the trees of the rows.
/// [`read_rows`](crate::read_rows) reads the same rows and the same path from it.
///
/// # Errors
///
/// `Unwritable` if a row has something that is blocked, which no row of a plan has, or a mode above
/// [`MODE_LIMIT`].
pub fn write_rows(alloc: Global, rows: &Rows, at: &Path) -> Result<Vec<u8>, WriteFault>
    ensures text { IfOk result (λ text. text.items ≡ undo_text at.now rows.now.items.items) }
    ensures again { IfOk result (λ text.
        undo_in text.items ≡ Ok (undo_view at.now rows.now.items.items)) }
    ensures writable { OnOk result (list_all is_writable_row rows.now.items.items ≡ true) }
    ensures unwritable { (result ≡ Err Unwritable)
        → list_all is_writable_row rows.now.items.items ≡ false }
{
    let rows = rows.items.as_slice();
    if !are_writable(rows) {
        return Err(WriteFault::Unwritable);
    }
    let value = undo_value(alloc, rows, at)?;
    let mut text = value.to_vec(alloc)?;
    text.push(b'\n')?;
    Ok(text)
}
