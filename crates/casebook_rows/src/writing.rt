//! Writes the fields of rows.
ghost use Rattle.std.specs.Prelude.{◌≡◌, ◌∷◌, ◌++◌, OnOk, decimal, string_bytes};
ghost use Rattle.std.specs.Fmt.{signed_decimal};
ghost use Rattle.hex.specs.Hex.{encode_lower};
ghost use Rattle.casebook_rows.specs.Rows.{tab};
ghost use Rattle.casebook_rows.specs.Written.{escaped, octal, path_field};

use crate::NoMem;
use itoa::Buffer;
use percent_encoding::{AsciiSet, CONTROLS, ascii_set, percent_encode};
use retro_path::Path;
use std::alloc::Global;

/// The ASCII bytes that texts don't have as they are.
const ESCAPED: AsciiSet = ascii_set!(CONTROLS.add(b'%'));

/// Appends a number, in decimal digits.
pub fn push_number(row: &mut String, number: u64) -> Result<(), NoMem>
    ensures { OnOk result (string_bytes row.new ≡ string_bytes row.old ++ tab ∷ decimal number) }
{
    row.push('\t')?;
    row.push_str(Buffer::new().format(number))
}

/// Appends a number that may be negative, in decimal digits.
pub fn push_signed(row: &mut String, number: i64) -> Result<(), NoMem>
    ensures { OnOk result
        (string_bytes row.new ≡ string_bytes row.old ++ tab ∷ signed_decimal number) }
{
    row.push('\t')?;
    row.push_str(Buffer::new().format(number))
}

/// Appends a number, in octal digits.
pub fn push_octal(alloc: Global, row: &mut String, number: u32) -> Result<(), NoMem>
    ensures { OnOk result (string_bytes row.new ≡ string_bytes row.old ++ tab ∷ octal number) }
{
    row.push('\t')?;
    row.push_str(format!(in alloc; "{number:o}")?.as_str())
}

/// Appends bytes as a text, in which some are escaped.
pub fn push_text(row: &mut String, text: &[u8]) -> Result<(), NoMem>
    ensures { OnOk result (string_bytes row.new ≡ string_bytes row.old ++ tab ∷ escaped text.now) }
{
    row.push('\t')?;
    percent_encode(text, ESCAPED).append_to(row)
}

/// Appends a path.
pub fn push_path(row: &mut String, path: &Path) -> Result<(), NoMem>
    ensures { OnOk result
        (string_bytes row.new ≡ string_bytes row.old ++ tab ∷ path_field path.now) }
{
    push_text(row, path.as_str().as_bytes())
}

/// Appends a digest, in hexadecimal digits.
pub fn push_digest(alloc: Global, row: &mut String, digest: &[u8; 32]) -> Result<(), NoMem>
    ensures { OnOk result
        (string_bytes row.new ≡ string_bytes row.old ++ tab ∷ encode_lower digest.now) }
{
    row.push('\t')?;
    row.push_str(hex::encode(alloc, *digest)?.as_str())
}
