//! The documents that a request names.

/// The names of the documents that a request needs.
#[derive(Clone, Copy, Debug, Drop)]
pub struct Sources<'a> {
    /// The log.
    pub log: &'a str,
    /// The document with the list of lines to cancel, if it is named after `@`.
    pub list: Option<&'a str>,
    /// The document with names and times, if one is given.
    pub about: Option<&'a str>,
}
