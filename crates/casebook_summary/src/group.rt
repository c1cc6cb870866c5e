//! Groups of lines to tell about.
use crate::subject::Subject;

/// Lines of a session of whose screens somebody has to be told, all about the same subject.
#[derive(Drop)]
pub struct Group {
    /// The session that ran the lines.
    pub session: u32,
    /// What the lines' first query is about that has another answer, if one has.
    pub subject: Subject,
    /// The numbers of the lines, in order.
    pub lines: Vec<u32>,
}
