//! The two runs of a line.
ghost use Rattle.std.specs.Prelude.{◌≡◌};
ghost use Rattle.casebook_html.specs.Page.{heading};

use crate::tag::Tag;

/// One of the two runs of a line.
#[derive(Clone, Copy, Debug, PartialEq, Eq)]
pub enum Run {
    /// As it was recorded.
    Recorded,
    /// In the repaired recording.
    Repaired,
}

impl Run {
    /// Returns what stands before what the line printed.
    pub(crate) fn heading(self) -> Tag
        ensures { result ≡ heading self }
    {
        match self {
            Run::Recorded => Tag::Saw,
            Run::Repaired => Tag::WouldSee,
        }
    }
}
