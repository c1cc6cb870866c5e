//! Observers of executions.

/// When a line is executed.
#[derive(Clone, Copy, PartialEq, Eq, Debug)]
pub enum Turn {
    /// Ahead of its turn, as a guess.
    Guess,
    /// At its turn.
    Place,
}

/// An observer of executions, which is called before and after each execution of a line.
pub trait Gate {
    /// Signals that the line with the given number is about to be executed.
    fn begin(&self, number: u32, turn: Turn);

    /// Signals that the execution of the line with the given number has ended, whether or not it
    /// ran out of memory.
    fn end(&self, number: u32, turn: Turn);
}

/// An observer that does nothing.
#[derive(Clone, Copy, Debug)]
pub struct Quiet;

impl Gate for Quiet {
    fn begin(&self, _number: u32, _turn: Turn) {}

    fn end(&self, _number: u32, _turn: Turn) {}
}
