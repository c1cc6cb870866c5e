//! The calls of rows on `casebook_rows`.
use crate::texts::bytes_text;
use casebook_rows::{
    digest_of, fields_of, number_of, octal_of, path_of, push_digest, push_number, push_octal,
    push_path, push_signed, push_text, rows_of, short_number_of, signed_of, text_of,
};
use hex::FromHex;
use retro_path::NoMem;
use retro_rows::{fail, path, text};
use std::alloc::Global;
use std::test::Fail;

/// Returns parts as a list of texts in brackets.
fn parts_text(alloc: Global, parts: &[&[u8]]) -> Result<String, NoMem> {
    let mut list = String::new(alloc);
    for part in parts {
        if !list.is_empty() {
            list.push(' ')?;
        }
        list.push_str(bytes_text(alloc, part)?.as_str())?;
    }
    Ok(list)
}

/// Returns the rows of a text.
pub fn rows(alloc: Global, text: &str) -> Result<String, Fail> {
    let rows = rows_of(alloc, text.as_bytes())?;
    Ok(parts_text(alloc, rows.as_slice())?)
}

/// Returns the word and the fields of a row.
pub fn fields(alloc: Global, row: &str) -> Result<String, Fail> {
    let fields = fields_of(alloc, row.as_bytes())?;
    Ok(parts_text(alloc, fields.as_slice())?)
}

/// Returns a number as a text, or `-`.
fn or_none(alloc: Global, number: Option<u64>) -> Result<String, NoMem> {
    match number {
        Some(number) => format!(in alloc; "{number}"),
        None => text(alloc, "-"),
    }
}

/// Returns a number of 32 bits as a text, or `-`.
fn short_or_none(alloc: Global, number: Option<u32>) -> Result<String, NoMem> {
    or_none(alloc, number.map(|number| u64::from(number)))
}

/// Returns a number with a sign as a text, or `-`.
fn signed_or_none(alloc: Global, number: Option<i64>) -> Result<String, NoMem> {
    match number {
        Some(number) => format!(in alloc; "{number}"),
        None => text(alloc, "-"),
    }
}

/// Returns which number a field is: of 64 bits, of 32 bits, in octal digits, and with a sign.
pub fn number(alloc: Global, field: &str) -> Result<String, Fail> {
    let field = field.as_bytes();
    let long = or_none(alloc, number_of(field))?;
    let short = short_or_none(alloc, short_number_of(field))?;
    let octal = short_or_none(alloc, octal_of(field))?;
    let signed = signed_or_none(alloc, signed_of(field))?;
    Ok(format!(in alloc;
        "{} {} {} {}",
        long.as_str(),
        short.as_str(),
        octal.as_str(),
        signed.as_str()
    )?)
}

/// Returns the bytes of a text.
pub fn decoded(alloc: Global, field: &str) -> Result<String, Fail> {
    Ok(bytes_text(alloc, text_of(alloc, field.as_bytes())?.as_slice())?)
}

/// Returns the path that a field is, in brackets, or `none`.
pub fn path_read(alloc: Global, field: &str) -> Result<String, Fail> {
    match path_of(alloc, field.as_bytes())? {
        Some(path) => Ok(bytes_text(alloc, path.as_str().as_bytes())?),
        None => Ok(text(alloc, "none")?),
    }
}

/// Returns the digest that a field is, or `none`.
pub fn digest(alloc: Global, field: &str) -> Result<String, Fail> {
    match digest_of(field.as_bytes()) {
        Some(digest) => Ok(hex::encode(alloc, digest)?),
        None => Ok(text(alloc, "none")?),
    }
}

/// Returns the digest of hexadecimal digits.
pub fn digest_from(digits: &str) -> Result<[u8; 32], Fail> {
    match <[u8; 32] as FromHex>::from_hex(digits.as_bytes()) {
        Ok(digest) => Ok(digest),
        Err(_) => fail("no digest"),
    }
}

/// Returns the row `a` with a value appended.
pub fn pushed(alloc: Global, kind: &str, value: &str) -> Result<String, Fail> {
    let mut row = text(alloc, "a")?;
    match kind {
        "number" => push_number(&mut row, value.parse()?)?,
        "signed" => push_signed(&mut row, value.parse()?)?,
        "octal" => push_octal(alloc, &mut row, value.parse()?)?,
        "text" => push_text(&mut row, value.as_bytes())?,
        "bytes" => push_text(&mut row, hex::decode(alloc, value)?.as_slice())?,
        "path" => push_path(&mut row, &path(alloc, value)?)?,
        "digest" => push_digest(alloc, &mut row, &digest_from(value)?)?,
        _ => return fail("no such kind"),
    }
    Ok(row)
}
