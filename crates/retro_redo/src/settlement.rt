//! How lines are settled.

/// How a repair settled a line.
#[derive(Clone, Copy, PartialEq, Eq, Debug)]
pub enum Settlement {
    /// The line is cancelled.
    Cancelled,
    /// The line is kept as recorded.
    Kept,
    /// The line is stale, and has its guess as its new run.
    TakenUp,
    /// The line is stale, and was run again at its turn.
    Redone,
}
