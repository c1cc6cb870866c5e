//! Where the lines of recordings come from.
use retro_tree::Text;

/// What a recorder says of the lines that it saw, by their numbers, which rise, and what it doesn't
/// know.
#[derive(Clone, Copy)]
pub struct Seen<'a> {
    /// The lines that stand as they were observed. Each other line did what Retro's shell does.
    pub observed: &'a [u32],
    /// The lines while which others were open. It isn't known which of them did what was seen.
    pub overlapping: &'a [u32],
    /// The changes that no recorded line made.
    pub outside: &'a [u32],
    /// The numbers of the sessions of which some lines have no record.
    pub incomplete: &'a [u32],
    /// The watched folders in which it wasn't always seen what lines only read.
    pub unseen: &'a [Text],
}

/// Where the lines of a recording come from.
#[derive(Clone, Copy)]
pub enum Source<'a> {
    /// They were played in Retro's shell.
    Played,
    /// A recorder saw them on a machine.
    Seen(Seen<'a>),
}
