//! How far the work is, and what is said beside an answer.
use casebook_text::SafeLine;

/// A part of the work that can be long.
#[derive(Clone, Copy, Debug, Drop, PartialEq, Eq)]
pub enum Step {
    /// A log of so many bytes is read.
    Reading(usize),
    /// So many lines are repaired.
    Repairing(usize),
    /// It is found out what the repair of so many lines would do.
    Showing(usize),
    /// The answer is written.
    Writing,
}

/// Somebody who waits for an answer, and is told how far the work is.
pub trait Progress {
    /// Is told that a part of the work begins.
    fn begin(&self, step: Step);

    /// Is told what is said beside the answer.
    fn remark(&self, remark: &SafeLine);
}
