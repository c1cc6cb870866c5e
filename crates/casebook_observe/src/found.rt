//! What files and links hold.
use casebook_spool::Unkept;
use retro_path::Bytes;

/// What is found in a file or a link that is read.
#[derive(Drop)]
pub enum Found {
    /// The bytes of a file.
    Bytes(Bytes),
    /// Where a link leads.
    Target(Bytes),
    /// A file that couldn't be read, and why.
    Unkept(Unkept),
}
