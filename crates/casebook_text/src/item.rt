//! Items of lists of lines.
ghost use Rattle.std.specs.Prelude.{◌≡◌, option_map};
ghost use Rattle.casebook_text.specs.Item.{after_dash, item_in, lines_in, numbers_in};

use crate::splitting::cut_at;
use retro_text::number_of;

/// The lines that an item names.
#[derive(Clone, Copy, Debug, PartialEq, Eq)]
pub(crate) enum Lines {
    /// The line with this number.
    One(u32),
    /// The lines from the first number to the second.
    Range(u32, u32),
    /// The lines of this session.
    Session(u32),
}

/// An item of a list: lines that are added to the set, or taken away from it.
#[derive(Clone, Copy, Debug, PartialEq, Eq)]
pub(crate) struct Item {
    /// Whether the lines are added.
    pub(crate) adds: bool,
    /// The lines.
    pub(crate) lines: Lines,
}

/// Returns what comes after a dash at the front of a text, or `None` if it doesn't begin with one.
fn after_dash(text: &str) -> Option<&str>
    ensures { option_map (λ rest. rest.now) result ≡ after_dash text.now }
{
    text.strip_prefix('-')
}

/// Reads a number, or two with a dash between them.
#[tactic(auto, unfolding(crate::specs::Item::numbers_in))]
fn numbers_of(text: &str) -> Option<Lines>
    ensures { result ≡ numbers_in text.now }
{
    match cut_at(text, '-') {
        Some((first, last)) => Some(Lines::Range(number_of(first)?, number_of(last)?)),
        None => Some(Lines::One(number_of(text)?)),
    }
}

/// Reads the lines that an item adds.
#[tactic(auto, unfolding(crate::specs::Item::lines_in))]
fn lines_of(text: &str) -> Option<Lines>
    ensures { result ≡ lines_in text.now }
{
    match cut_at(text, ':') {
        Some((session, "all")) => Some(Lines::Session(number_of(session)?)),
        Some(_) => None,
        None => numbers_of(text),
    }
}

impl Item {
    /// Reads an item: `N`, `N-M` or `S:all`, whose lines are added, or `-N` or `-N-M`, whose lines
    /// are taken away. Returns `None` for any other text.
    #[tactic(auto, unfolding(crate::specs::Item::item_in))]
    pub(crate) fn of(text: &str) -> Option<Item>
        ensures { result ≡ item_in text.now }
    {
        match after_dash(text) {
            Some(rest) => Some(Item {
                adds: false,
                lines: numbers_of(rest)?,
            }),
            None => Some(Item {
                adds: true,
                lines: lines_of(text)?,
            }),
        }
    }
}
