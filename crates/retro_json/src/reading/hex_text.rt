//! Reads bytes as documents write them: as hexadecimal digits.
ghost use Rattle.std.specs.Prelude.{◌≡◌, IfOk};
ghost use Rattle.retro_json.specs.TreePart.{bytes_in};

use hex::FromHexError;
use retro_tree::{Bytes, NoMem};
use std::alloc::Global;

/// Returns the bytes that pairs of hexadecimal digits of either case encode, or `None` if the text
/// isn't such pairs.
pub fn bytes_in(alloc: Global, hex: &str) -> Result<Option<Bytes>, NoMem>
    ensures { IfOk result (λ bytes. bytes ≡ bytes_in hex.now) }
{
    match hex::decode(alloc, hex) {
        Ok(bytes) => Ok(Some(Bytes::of(bytes))),
        Err(FromHexError::OutOfMemory) => Err(NoMem),
        Err(_) => Ok(None),
    }
}
