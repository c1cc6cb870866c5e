//! What files and links hold.
use crate::digest::Digest;
use retro_path::Bytes;

/// What a file or a link held when the recorder looked.
#[derive(Drop)]
pub enum Content {
    /// The bytes of a file. They are kept under their digest.
    Kept(Digest),
    /// Where a link leads.
    Target(Bytes),
    /// The bytes of a file, which aren't kept.
    Unkept(Unkept),
}

/// Why the bytes of a file aren't kept.
#[derive(Clone, Copy, Debug, PartialEq, Eq)]
pub enum Unkept {
    /// It has more than 1,048,576 bytes.
    TooLarge,
    /// The system refused to read it.
    Unreadable,
    /// It changed each time that it was read.
    Changing,
}
