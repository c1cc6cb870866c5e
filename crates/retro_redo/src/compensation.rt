//! Differences between what lines printed and what they print in the repaired run.

/// An output difference: a line that prints something else in the repaired run than it did when it
/// was recorded. What a terminal has shown can't be taken back, so whoever saw it has to be told.
#[derive(Clone, Copy)]
pub struct Compensation<'a> {
    /// The line's number.
    pub number: u32,
    /// What the line printed.
    pub before: &'a [u8],
    /// What the line prints in the repaired run. A cancelled line prints nothing.
    pub now: &'a [u8],
}
