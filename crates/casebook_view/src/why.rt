//! Why lines are run again.
ghost use Rattle.std.specs.Prelude.{◌≡◌};
ghost use Rattle.casebook_view.specs.Reasons.{failing_by};

/// Why a line is run again.
#[derive(Clone, Copy, Debug, PartialEq, Eq)]
pub enum Why {
    /// An edit replaces the line's text.
    Replaced,
    /// A query has another answer in the repaired state before the line than the noted one: the
    /// first of the line's notes that doesn't hold there, which has this index.
    Query(usize),
    /// All notes hold there. The line is run again with all others, since the log isn't as its
    /// lines run.
    RunAgain,
}

impl Why {
    /// Returns the index of the note that fails, or `None` if no query is the reason.
    pub fn failing(&self) -> Option<usize>
        ensures { result ≡ failing_by self.now }
    {
        match self {
            Why::Query(index) => Some(*index),
            Why::Replaced | Why::RunAgain => None,
        }
    }
}
