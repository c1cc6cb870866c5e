//! Reads the fields of rows.
ghost use Rattle.std.specs.Prelude.{◌≡◌, ◌≤◌, IfOk};
ghost use Rattle.casebook_rows.specs.Reading.{digest_of, is_numeral, signed_of, text_of};
ghost use Rattle.casebook_rows.specs.Reading.{unsigned_of};

use crate::NoMem;
use hex::FromHex;
use percent_encoding::percent_decode;
use std::alloc::Global;
use std::str::from_utf8;

/// Returns whether bytes are digits of a base, one at least.
fn is_numeral(field: &[u8], base: u32) -> bool
    requires { (2 ≤ base) × (base ≤ 10) }
    ensures { result ≡ is_numeral base field.now }
{
    !field.is_empty() && field.iter().all(|byte| char::from(*byte).is_digit(base))
}

/// Returns the number of 64 bits that digits of a base are.
fn unsigned_of(field: &[u8], base: u32) -> Option<u64>
    requires { (2 ≤ base) × (base ≤ 10) }
    ensures { result ≡ unsigned_of base 64 field.now }
{
    if !is_numeral(field, base) {
        return None;
    }
    u64::from_str_radix(from_utf8(field).ok()?, base).ok()
}

/// Returns the number of 64 bits that decimal digits are.
pub fn number_of(field: &[u8]) -> Option<u64>
    ensures { result ≡ unsigned_of 10 64 field.now }
{
    unsigned_of(field, 10)
}

/// Returns the number of 32 bits that decimal digits are.
pub fn short_number_of(field: &[u8]) -> Option<u32>
    ensures { result ≡ unsigned_of 10 32 field.now }
{
    u32::try_from(number_of(field)?).ok()
}

/// Returns the number of 32 bits that octal digits are.
pub fn octal_of(field: &[u8]) -> Option<u32>
    ensures { result ≡ unsigned_of 8 32 field.now }
{
    u32::try_from(unsigned_of(field, 8)?).ok()
}

/// Returns the number of 64 bits that decimal digits are, after a minus if it is negative.
pub fn signed_of(field: &[u8]) -> Option<i64>
    ensures { result ≡ signed_of field.now }
{
    match field {
        [b'-', digits @ ..] => 0_i64.checked_sub_unsigned(number_of(digits)?),
        digits => i64::try_from(number_of(digits)?).ok(),
    }
}

/// Returns the bytes of a text.
pub fn text_of(alloc: Global, field: &[u8]) -> Result<Vec<u8>, NoMem>
    ensures { IfOk result (λ text. text.items ≡ text_of field.now) }
{
    let mut text = Vec::new(alloc);
    percent_decode(field).append_to(&mut text)?;
    Ok(text)
}

/// Returns the digest that 64 hexadecimal digits are.
pub fn digest_of(field: &[u8]) -> Option<[u8; 32]>
    ensures { result ≡ digest_of field.now }
{
    <[u8; 32] as FromHex>::from_hex(field).ok()
}
