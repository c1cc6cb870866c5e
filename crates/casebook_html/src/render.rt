//! Pieces as text.
ghost use Rattle.std.specs.Prelude.{◌≡◌, ◌++◌, OnOk, decimal, string_bytes};
ghost use Rattle.casebook_text.specs.Html.{escaped};
ghost use Rattle.casebook_html.specs.Page.{link_text, piece_text};
ghost use Rattle.casebook_html.specs.Template.{bar_text, number_text, row_text};

use crate::NoMem;
use crate::number_tag::NumberTag;
use crate::piece::Piece;
use crate::row_class::RowClass;
use crate::tag::Tag;
use casebook_text::escape;
use std::alloc::Global;

/// Appends a tag with a number in it.
fn push_numbered(text: &mut String, alloc: Global, tag: NumberTag, number: u64) -> Result<(), NoMem>
    ensures { OnOk result (string_bytes text.new
        ≡ string_bytes text.old ++ number_text tag number) }
{
    let (before, after) = (tag.before(), tag.after());
    let html = format!(in alloc; "{before}{number}{after}")?;
    text.push_str(html.as_str())
}

/// Appends a bar.
fn push_bar(text: &mut String, alloc: Global, changed: u64, alike: u64) -> Result<(), NoMem>
    ensures { OnOk result (string_bytes text.new
        ≡ string_bytes text.old ++ bar_text changed alike) }
{
    let html = format!(in alloc; "<b class=bar style=\"--p:{changed};--q:{alike}\"></b>")?;
    text.push_str(html.as_str())
}

/// Appends the start of the row of a line.
fn push_row(text: &mut String, alloc: Global, number: u32, class: RowClass) -> Result<(), NoMem>
    ensures { OnOk result (string_bytes text.new
        ≡ string_bytes text.old ++ row_text number class) }
{
    let names = class.as_str();
    let html = format!(in alloc; "<details id=l{number} class=\"l {names}\"><summary><b>")?;
    text.push_str(html.as_str())
}

/// Appends a number.
fn push_number(text: &mut String, alloc: Global, number: u64) -> Result<(), NoMem>
    ensures { OnOk result (string_bytes text.new ≡ string_bytes text.old ++ decimal number) }
{
    let digits = format!(in alloc; "{number}")?;
    text.push_str(digits.as_str())
}

/// Appends a link to the row of a line.
fn push_link(text: &mut String, alloc: Global, tag: NumberTag, number: u32) -> Result<(), NoMem>
    ensures { OnOk result (string_bytes text.new
        ≡ string_bytes text.old ++ link_text tag number) }
{
    push_numbered(text, alloc, tag, u64::from(number))?;
    push_number(text, alloc, u64::from(number))?;
    text.push_str(Tag::LinkEnd.as_str())
}

/// Appends a text, and escapes it.
fn push_escaped(text: &mut String, alloc: Global, shown: &str) -> Result<(), NoMem>
    ensures { OnOk result (string_bytes text.new
        ≡ string_bytes text.old ++ escaped shown.now) }
{
    let html = escape(alloc, shown)?;
    text.push_str(html.as_str())
}

/// Appends a piece.
#[tactic(auto, unfolding(crate::specs::Page::piece_text))]
pub(crate) fn push_piece(text: &mut String, alloc: Global, piece: &Piece) -> Result<(), NoMem>
    ensures { OnOk result (string_bytes text.new
        ≡ string_bytes text.old ++ piece_text piece.now) }
{
    match piece {
        Piece::Fixed(tag) => text.push_str(tag.as_str()),
        Piece::Numbered(tag, number) => push_numbered(text, alloc, *tag, *number),
        Piece::Bar(changed, alike) => push_bar(text, alloc, *changed, *alike),
        Piece::Row(number, class) => push_row(text, alloc, *number, *class),
        Piece::Link(tag, number) => push_link(text, alloc, *tag, *number),
        Piece::Anchor(number) => { push_numbered(text, alloc, NumberTag::Link, u64::from(*number)) }
        Piece::Output(run, _) => text.push_str(run.heading().as_str()),
        Piece::Words(words) => push_escaped(text, alloc, words),
        Piece::Number(number) => push_number(text, alloc, *number),
        Piece::Text(line) | Piece::Aside(line) => push_escaped(text, alloc, line.as_str()),
        Piece::Excerpt(excerpt) => push_escaped(text, alloc, excerpt.as_str()),
    }
}
