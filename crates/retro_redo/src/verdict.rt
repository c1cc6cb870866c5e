//! Verdicts on lines.
ghost use Rattle.std.specs.Prelude.{◌≡◌};
ghost use Rattle.retro_redo.specs.Progress.{verdict_of};

use crate::line::Line;
use crate::step::Step;

/// How a repair settled a line.
#[derive(Clone, Copy, PartialEq, Eq, Debug)]
pub enum Verdict {
    /// The line is cancelled.
    Cancelled,
    /// The line was run again, since its text is replaced or its notes no longer hold.
    Redone,
    /// The line is kept: it isn't edited and its notes still hold, so it prints and changes what
    /// was recorded.
    Kept,
}

/// What a repair did with a line.
#[derive(Clone, Copy, PartialEq, Eq, Debug)]
pub struct SettledLine {
    /// The line's number.
    pub number: u32,
    /// How the line was settled.
    pub verdict: Verdict,
    /// Whether the line is met: whether its text is replaced, or it isn't edited and reads or
    /// writes a cell in which the repaired state differs from the recorded one.
    pub is_met: bool,
}

impl SettledLine {
    /// Returns what `step` does with a line.
    pub(crate) fn of(line: &Line<'_, '_>, step: &Step) -> SettledLine
        ensures number { result.number ≡ line.now.number }
        ensures verdict { result.verdict ≡ verdict_of step.now }
        ensures met { result.is_met ≡ line.now.is_met }
    {
        SettledLine {
            number: line.number,
            verdict: step.verdict(),
            is_met: line.is_met,
        }
    }
}
