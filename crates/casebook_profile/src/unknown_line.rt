//! A line that isn't understood.
use casebook_usage::Obstacle;

/// A line that isn't understood.
#[derive(Clone, Copy, Debug, PartialEq, Eq)]
pub struct UnknownLine {
    /// The line's number.
    pub number: u32,
    /// Why it isn't understood.
    pub obstacle: Obstacle,
}
