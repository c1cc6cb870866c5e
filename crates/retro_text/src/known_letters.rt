//! The option letters that a utility knows.

/// The option letters that a utility knows (XBD 12.2).
#[derive(Clone, Copy, Debug)]
pub struct KnownLetters<'a> {
    /// The letters of options without an argument.
    pub flags: &'a [u8],
    /// The letters of options with an argument.
    pub arguments: &'a [u8],
}
