//! Streams, as texts of their parts.
use retro_rows::text;
use std::alloc::Global;
use std::test::Fail;

/// Appends the bytes of a part: hexadecimal digits, or a byte and how often it comes, as in
/// `00*512`.
fn push_part(alloc: Global, bytes: &mut Vec<u8>, part: &str) -> Result<(), Fail> {
    match part.split_once('*') {
        Some((digits, count)) => {
            let count: u32 = count.parse()?;
            let byte = hex::decode(alloc, digits)?;
            for _ in 0..count {
                bytes.extend_from_slice(byte.as_slice())?;
            }
        }
        None => bytes.extend_from_slice(hex::decode(alloc, part)?.as_slice())?,
    }
    Ok(())
}

/// Returns the bytes of parts, which spaces separate.
pub fn stream(alloc: Global, parts: &str) -> Result<Vec<u8>, Fail> {
    let mut bytes = Vec::new(alloc);
    for part in parts.split(' ') {
        push_part(alloc, &mut bytes, part)?;
    }
    Ok(bytes)
}

/// Returns a stream with other bytes from an offset on.
pub fn changed(alloc: Global, bytes: &[u8], at: usize, new: &[u8]) -> Result<Vec<u8>, Fail> {
    let mut all = Vec::new(alloc);
    for (index, byte) in bytes.iter().enumerate() {
        let other = if index >= at {
            new.get(index - at)
        } else {
            None
        };
        all.push(*other.unwrap_or(byte))?;
    }
    Ok(all)
}

/// Returns a stream in which the checksum of the header at an offset is written anew.
pub fn summed(alloc: Global, bytes: &[u8], at: usize) -> Result<Vec<u8>, Fail> {
    let field = at.wrapping_add(148);
    let blank = changed(alloc, bytes, field, b"        ")?;
    let mut sum = 0u64;
    for (index, byte) in blank.as_slice().iter().enumerate() {
        if index >= at && index - at < 512 {
            sum = sum.wrapping_add(u64::from(*byte));
        }
    }
    let digits = format!(in alloc; "{sum:06o}\0 ")?;
    changed(alloc, blank.as_slice(), field, digits.as_str().as_bytes())
}

/// Returns a name, or its hexadecimal digits if it isn't UTF-8.
pub fn text_or_hex(alloc: Global, name: &[u8]) -> Result<String, Fail> {
    match str::from_utf8(name) {
        Ok(name) => Ok(text(alloc, name)?),
        Err(_) => Ok(format!(in alloc; "hex {}", hex::encode(alloc, name)?.as_str())?),
    }
}
