//! What patterns are searched in.

/// What a pattern is searched in.
#[derive(Clone, Copy, Debug, PartialEq, Eq)]
pub enum SearchedPart {
    /// The texts of lines.
    Text,
    /// What lines printed.
    Outputs,
}
