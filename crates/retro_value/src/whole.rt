//! Reads a text that is one value.
ghost use Rattle.std.specs.Prelude.{◌≡◌, Err, IfOk, None, Some};
ghost use Rattle.serde_json.specs.Read.{read};
ghost use Rattle.retro_value.specs.Borrowed.{value_data};
ghost use Rattle.retro_value.specs.declared.error.ReadError.TheVariants.{NotJson};

use crate::error::ReadError;
use crate::value::read_value;
use json::{Reader, Scratch, Value};
use std::alloc::Global;

/// How deep the arrays and objects of a text may nest, as `serde_json` reads it.
pub const DEPTH: usize = 127;

/// Reads the value that a text is.
pub fn read_whole<'a>(
    alloc: Global,
    text: &'a str,
    scratch: &'a mut Scratch,
) -> Result<Value<'a>, ReadError>
    ensures value { IfOk result (λ v. read text.now ≡ Some (value_data v)) }
    ensures not_json { result ≡ Err NotJson → read text.now ≡ None }
{
    let mut reader = Reader::new(text, scratch)?;
    let value = read_value(alloc, &mut reader, DEPTH)?;
    if reader.next().is_some() {
        return Err(ReadError::NotJson);
    }
    Ok(value)
}
