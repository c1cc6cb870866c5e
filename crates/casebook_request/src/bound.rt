//! Bounds of the lines that are shown.

/// The first or the last of the lines that are shown.
#[derive(Clone, Copy, Debug, Drop, PartialEq, Eq)]
pub enum Bound {
    /// The line with this number.
    Line(u32),
    /// A line that was typed in this second, counted from the start of 1970 (UTC).
    Second(i64),
}
