//! How a line is shown on a terminal.

/// How a line is shown on a terminal that has colours.
#[derive(Clone, Copy, Debug, Drop, PartialEq, Eq)]
pub(crate) enum Style {
    /// As it is.
    Plain,
    /// The head of a part.
    Head,
    /// A line that comes.
    Added,
    /// A line that goes.
    Removed,
    /// Where the lines after it are.
    Place,
}
