//! The documents that a request names, as they were read.
use crate::document::Document;

/// The documents that a request needs.
#[derive(Debug, Drop)]
pub struct Inputs<'a> {
    /// The log.
    pub log: Document<'a>,
    /// The document with the list of lines to cancel, if one is named.
    pub list: Option<Document<'a>>,
    /// The document with names and times, if one is given.
    pub about: Option<Document<'a>>,
}
