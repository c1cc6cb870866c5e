//! The lines that a recording is made of.
use crate::seen::Seen;
use casebook_record::Record;
use retro_path::Bytes;

/// A line of a session.
#[derive(Clone, Copy, Debug, Drop, PartialEq, Eq)]
pub struct LineName {
    /// The place of the session, counted from 1.
    pub session: usize,
    /// The number of the line in the session.
    pub number: u32,
}

/// Whose line it is.
#[derive(Clone, Copy, Debug, Drop, PartialEq, Eq)]
pub enum Owner {
    /// Nobody's: it was seen outside the recorded sessions.
    Nobody,
    /// That of a session.
    Line(LineName),
}

/// How much of what a line did it is.
#[derive(Clone, Copy, Debug, Drop, PartialEq, Eq)]
pub enum Extent {
    /// The line ended. What was seen before its end may be in parts.
    Whole,
    /// The line hasn't ended.
    Part,
    /// The line was cut off: it has no end.
    CutOff,
}

/// A line with what it read, listed and left.
#[derive(Drop)]
pub struct TypedLine<'a> {
    /// Whose it is.
    pub owner: Owner,
    /// How much of the line it is.
    pub extent: Extent,
    /// The record that showed it. It has the time, the user and the directory, and of a whole line
    /// the statuses and what the session's state is, if that is new.
    pub shown: &'a Record,
    /// Its text, unless it is hidden or nobody's.
    pub text: Option<&'a Bytes>,
    /// What it did.
    pub seen: Seen<'a>,
    /// The lines that were open, if there were two or more: it isn't known which of them did it.
    pub overlapping: Vec<LineName>,
}
