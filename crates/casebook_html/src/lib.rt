//! One HTML file, made of pieces.
//!
//! [`Html`] is [`Piece`]s, one after another, each of which is a constant of the template ([`Tag`]), a
//! tag of it with a number ([`NumberTag`]), or a text that is escaped. Each begins and ends outside of
//! tags, of the style and of the script. So no tag is in a page that isn't the template's, and no text
//! of a log is in an attribute, a style or a script. Pieces that say something of what the page is
//! about are told: signs, rows, links, outputs, numbers and texts. All others only say how it looks.
//!
//! The template asks for nothing from a network, and can be read without its script.
//!
//! If allocation fails, calls return `NoMem`.
//!
//! Start reading at `html.rt`, then `piece.rt` and `specs/Page.antt`.
//!
//! # What is proved
//!
//! - In contracts a part of a page is those of its pieces that are told, and each call appends
//!   exactly the piece that it is named for, or none that is told.
//! - `Html::page` returns the start of the template with the policy, and then the texts of the
//!   pieces, each of them allowed (`IsPage`). Outside of links, signs and rows no number of a line is
//!   in an attribute, and each link shows the number of the line to which it leads. Words of the
//!   template have no digits.
//! - An escaped text that is safe to show has no `<`, `>` or quote, no `&` but of its own escapes
//!   and no control code of ASCII but newline and tab, and its character references stand for the
//!   text (`escaped_texts_are_harmless`, `specs/Harmless.antt`).
//! - That a constant of `specs/Template.antt` begins and ends outside of tags is there to be read, and
//!   that the policy's digest is that of the script isn't proved.
#![tactic(auto)]

mod excerpt;
mod html;
mod laws;
mod number_tag;
mod piece;
mod render;
mod row_class;
mod run;
mod script;
mod style;
mod tag;

pub use excerpt::Excerpt;
pub use html::Html;
pub use laws::escaped_texts_are_harmless;
pub use number_tag::NumberTag;
pub use piece::Piece;
pub use row_class::RowClass;
pub use run::Run;
pub use tag::Tag;

/// Allocation failed.
pub use casebook_text::NoMem;
