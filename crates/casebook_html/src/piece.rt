//! Pieces of pages.
use crate::excerpt::Excerpt;
use crate::number_tag::NumberTag;
use crate::row_class::RowClass;
use crate::run::Run;
use crate::tag::Tag;
use casebook_text::SafeLine;

/// A piece of a page. Those that say something of a repair are told: signs, rows, links, outputs,
/// numbers and texts. All others only say how it looks.
#[derive(Drop)]
pub enum Piece {
    /// A constant of the template.
    Fixed(Tag),
    /// A tag of the template with a number in it, which says where something stands.
    Numbered(NumberTag, u64),
    /// A bar: how many percent of its lines have another result, and how many the same.
    Bar(u64, u64),
    /// The start of the row of the line with a number.
    Row(u32, RowClass),
    /// The number of a line, as a link to its row.
    Link(NumberTag, u32),
    /// The start of a link to the row of the line with a number.
    Anchor(u32),
    /// What comes before what the line with a number printed.
    Output(Run, u32),
    /// Words that say nothing of the repair by themselves.
    Words(&'static str),
    /// A number.
    Number(u64),
    /// A path, a name, a time, the text of a line, or words that say something of the repair.
    Text(SafeLine),
    /// A line that shows a part of a text.
    Aside(SafeLine),
    /// A part of a text of several lines.
    Excerpt(Excerpt),
}
