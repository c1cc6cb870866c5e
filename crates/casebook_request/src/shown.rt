//! What is shown of a repair.

/// What is shown of a repair.
#[derive(Clone, Copy, Debug, Drop, PartialEq, Eq)]
pub enum ShownPart {
    /// The summary, and more if it is asked for.
    Summary(Extras),
    /// One line in full.
    Line(u32),
    /// The summary as JSON, for programs.
    Json,
}

/// What is shown after the summary of a repair.
#[derive(Clone, Copy, Debug, Drop, PartialEq, Eq)]
pub struct Extras {
    /// Why lines were run again.
    pub why: bool,
    /// How files and outputs differ.
    pub diff: bool,
}
