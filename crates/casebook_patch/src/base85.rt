//! Bytes as lines in base 85.
ghost use Rattle.std.specs.Prelude.{◌≡◌, ◌<◌, ◌≤◌, ◌^◌, ◌++◌, OnOk, flat_map, length, slice_index};
ghost use Rattle.casebook_patch.specs.Binary.{digit, five_digits, five_of, length_letter, line};
ghost use Rattle.casebook_patch.specs.Binary.{line_limit, number_of, pieces};

use crate::NoMem;

/// The digits from 0 to 84.
const DIGITS: &[u8; 85] =
    b"0123456789ABCDEFGHIJKLMNOPQRSTUVWXYZabcdefghijklmnopqrstuvwxyz!#$%&()*+-;<=>?@^_`{|}~";

/// The greatest number of bytes in a line.
const LINE_LIMIT: usize = 52;

/// Returns a digit.
fn digit(value: u32) -> u8
    requires { value < 85 }
    ensures { result ≡ digit value }
{
    DIGITS[value as usize]
}

/// Returns a byte, or 0 past the end.
fn byte_at(bytes: &[u8], index: usize) -> u32
    ensures value { result ≡ slice_index bytes.now index }
    ensures small { result < 256 }
{
    match bytes.get(index) {
        Some(byte) => u32::from(*byte),
        None => 0,
    }
}

/// Returns the number of four bytes. Those that are missing are 0.
fn number_of(bytes: &[u8]) -> u32
    ensures { result ≡ number_of bytes.now }
{
    byte_at(bytes, 0) * 16_777_216
        + byte_at(bytes, 1) * 65_536
        + byte_at(bytes, 2) * 256
        + byte_at(bytes, 3)
}

/// Returns the five digits of a number.
fn five_digits(number: u32) -> [u8; 5]
    ensures { result ≡ five_digits number }
{
    [
        digit(number / 52_200_625),
        digit(number / 614_125 % 85),
        digit(number / 7_225 % 85),
        digit(number / 85 % 85),
        digit(number % 85),
    ]
}

/// Returns the letter for the number of bytes in a line.
fn length_letter(length: usize) -> u8
    requires { length ≤ line_limit }
    ensures { result ≡ length_letter length }
{
    if length <= 26 {
        64 + length as u8
    } else {
        70 + length as u8
    }
}

/// Appends the digits of bytes.
fn push_digits(text: &mut Vec<u8>, bytes: &[u8]) -> Result<(), NoMem>
    ensures { OnOk result (text.new.items
        ≡ text.old.items ++ flat_map five_of (pieces 4 bytes.now)) }
{
    for piece in bytes.chunks(4) {
        text.extend_from_slice(&five_digits(number_of(piece)))?;
    }
    Ok(())
}

/// Appends a line.
fn push_line(text: &mut Vec<u8>, bytes: &[u8]) -> Result<(), NoMem>
    requires { length bytes.now ≤ line_limit }
    ensures { OnOk result (text.new.items ≡ text.old.items ++ line bytes.now) }
{
    text.push(length_letter(bytes.len()))?;
    push_digits(text, bytes)?;
    text.push(b'\n')?;
    Ok(())
}

/// Appends bytes as lines.
pub(crate) fn push_lines(text: &mut Vec<u8>, bytes: &[u8]) -> Result<(), NoMem>
    ensures { OnOk result (text.new.items
        ≡ text.old.items ++ flat_map line (pieces line_limit bytes.now)) }
{
    for piece in bytes.chunks(LINE_LIMIT) {
        push_line(text, piece)?;
    }
    Ok(())
}
