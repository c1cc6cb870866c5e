//! What sessions and lines are called, in columns.
use casebook_about::Labels;

/// What sessions and lines are called, and how wide the column of names is.
#[derive(Drop, Clone, Copy)]
pub struct Names<'a> {
    /// The names of sessions, and the times of lines.
    pub labels: &'a Labels,
    /// The width of the column of names.
    pub width: usize,
}
