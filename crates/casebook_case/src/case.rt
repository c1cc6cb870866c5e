//! Cases.
use casebook_spool::{Contents, Lines, Listing};
use retro_path::Bytes;

/// What a recorder saw of a machine.
#[derive(Drop)]
pub struct Case {
    /// The first look at the watched folders.
    pub first: Listing,
    /// The observations since.
    pub lines: Lines,
    /// The bytes of files that they name.
    pub contents: Contents,
    /// The watched folders in which it wasn't always seen what lines only read: rows of paths.
    pub unseen: Bytes,
}
