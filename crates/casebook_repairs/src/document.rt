//! Documents that were read.

/// A document that was read.
#[derive(Debug, Drop)]
pub struct Document<'a> {
    /// Its name, as the command line gives it.
    pub name: &'a str,
    /// What it holds.
    pub bytes: Vec<u8>,
}
