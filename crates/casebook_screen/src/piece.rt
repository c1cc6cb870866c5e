//! Pieces of what a terminal shows.
use casebook_text::SafeLine;

/// A piece of a line. Numbers and texts say something of a repair, and are told. All others only say
/// how it looks.
#[derive(Drop)]
pub enum Piece {
    /// The end of a line.
    End,
    /// Spaces.
    Spaces(usize),
    /// Words that say nothing of the repair by themselves.
    Words(&'static str),
    /// A number.
    Number(u64),
    /// A path, a name, a time, the text of a line, or words that say something of the repair.
    Text(SafeLine),
}
