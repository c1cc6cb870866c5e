//! Streams, as texts of their parts.
use std::alloc::Global;
use std::test::Fail;

/// Appends the bytes of a part: hexadecimal digits, or a byte and how often it comes, as in
/// `00*512`.
pub fn push_part(alloc: Global, bytes: &mut Vec<u8>, part: &str) -> Result<(), Fail> {
    match part.split_once('*') {
        Some((digits, count)) => {
            let count: u32 = count.parse()?;
            let byte = hex::decode(alloc, digits)?;
            for _ in 0..count {
                bytes.extend_from_slice(byte.as_slice())?;
            }
        }
        None => bytes.extend_from_slice(hex::decode(alloc, part)?.as_slice())?,
    }
    Ok(())
}

/// Returns the bytes of parts, which spaces separate.
pub fn stream(alloc: Global, parts: &str) -> Result<Vec<u8>, Fail> {
    let mut bytes = Vec::new(alloc);
    for part in parts.split(' ') {
        push_part(alloc, &mut bytes, part)?;
    }
    Ok(bytes)
}
