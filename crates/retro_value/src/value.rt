//! Reads one value.
ghost use Rattle.std.specs.Prelude.{◌≡◌, ◌<◌, Err, IfOk, None, OnOk, Some, length};
ghost use Rattle.retro_value.specs.Borrowed.{value_data};
ghost use Rattle.retro_value.specs.Left.{value_left};
ghost use Rattle.retro_value.specs.declared.error.ReadError.TheVariants.{NotJson};

use crate::error::ReadError;
use crate::range::is_in_range;
use json::{Error, Reader, Value};
use std::alloc::Global;

/// Reads the next value of a text. Its arrays and objects may nest `depth` deep.
pub fn read_value<'a>(
    alloc: Global,
    reader: &mut Reader<'a>,
    depth: usize,
) -> Result<Value<'a>, ReadError>
    ensures value { IfOk result (λ v. value_left depth reader.old ≡ Some (value_data v, reader.new)) }
    ensures shorter { OnOk result (length reader.new < length reader.old) }
    ensures not_json { result ≡ Err NotJson → value_left depth reader.old ≡ None }
{
    match Value::read(alloc, reader, depth) {
        Ok(value) => if is_in_range(&value) {
            Ok(value)
        } else {
            Err(ReadError::NotJson)
        },
        Err(Error::OutOfMemory) => Err(ReadError::NoMem),
        Err(Error::Invalid | Error::TooLong | Error::DuplicateKey) => Err(ReadError::NotJson),
    }
}
