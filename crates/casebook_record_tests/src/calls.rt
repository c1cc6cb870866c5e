//! The calls of rows.
use crate::texts::record_text;
use casebook_record::read_record;
use std::alloc::Global;
use std::test::Fail;

/// Appends a field, and the NUL that ends it.
fn push_field(bytes: &mut Vec<u8>, field: &str) -> Result<(), Fail> {
    bytes.extend_from_slice(field.as_bytes())?;
    bytes.push(0)?;
    Ok(())
}

/// Returns what bytes are read as, as text.
fn read_text(alloc: Global, bytes: &[u8]) -> Result<String, Fail> {
    match read_record(alloc, bytes) {
        Ok(record) => record_text(alloc, &record),
        Err(error) => Ok(format!(in alloc; "{error:?}")?),
    }
}

/// Returns what fields are read as.
pub fn read(alloc: Global, fields: &[String]) -> Result<String, Fail> {
    let mut bytes = Vec::new(alloc);
    for field in fields {
        push_field(&mut bytes, field)?;
    }
    read_text(alloc, bytes.as_slice())
}

/// Returns what fields are read as, with another one at a place. The first place is 0.
pub fn with(alloc: Global, fields: &[String], place: &str, new: &str) -> Result<String, Fail> {
    let place: usize = place.parse()?;
    let mut bytes = Vec::new(alloc);
    for (index, field) in fields.iter().enumerate() {
        push_field(&mut bytes, if index == place { new } else { field })?;
    }
    read_text(alloc, bytes.as_slice())
}

/// Returns what so many fields are read as.
pub fn first(alloc: Global, fields: &[String], count: &str) -> Result<String, Fail> {
    let count: usize = count.parse()?;
    let mut bytes = Vec::new(alloc);
    for (index, field) in fields.iter().enumerate() {
        if index < count {
            push_field(&mut bytes, field)?;
        }
    }
    read_text(alloc, bytes.as_slice())
}

/// Returns what fields and one more are read as.
pub fn more(alloc: Global, fields: &[String], last: &str) -> Result<String, Fail> {
    let mut bytes = Vec::new(alloc);
    for field in fields {
        push_field(&mut bytes, field)?;
    }
    push_field(&mut bytes, last)?;
    read_text(alloc, bytes.as_slice())
}

/// Returns what bytes are read as that are given by hexadecimal digits.
pub fn bytes(alloc: Global, digits: &str) -> Result<String, Fail> {
    read_text(alloc, hex::decode(alloc, digits)?.as_slice())
}
