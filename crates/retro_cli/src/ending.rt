//! Endings of runs that write an answer.

/// How the program ends once its answer is written.
#[derive(Clone, Copy, Debug, PartialEq, Eq)]
pub(crate) enum Ending {
    /// The answer is any other than `no` to a check.
    Done,
    /// The answer is `no`: the log isn't a recording of its lines.
    CheckNo,
}
