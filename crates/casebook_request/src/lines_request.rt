//! Requests for rows of lines.
use crate::bounds::Bounds;
use crate::format::Format;
use crate::path_filters::PathFilters;

/// Which lines of a log are to be shown, and how.
#[derive(Drop)]
pub struct LinesRequest<'a> {
    /// The name of the log.
    pub log: &'a str,
    /// The name of the document with names and times, if one is given.
    pub about: Option<&'a str>,
    /// The name of who ran each line, if one is given.
    pub user: Option<&'a str>,
    /// The session that ran each line, if one is given.
    pub session: Option<u32>,
    /// Between which numbers and times the lines are.
    pub bounds: Bounds,
    /// Which paths each line read and wrote.
    pub paths: PathFilters,
    /// A pattern that is found in each line's text.
    pub text: Option<&'a str>,
    /// A pattern that is found in what each line printed.
    pub shown: Option<&'a str>,
    /// Whether only lines are shown that aren't understood.
    pub is_unknown: bool,
    /// How the rows are written.
    pub format: Format,
}
