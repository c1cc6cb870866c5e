//! Lines of a text.
ghost use Rattle.std.specs.Prelude.{◌≡◌};
ghost use Rattle.retro_text.specs.Lines.{lines_in};

use memchr::memchr;
use std::marker::Model;

/// The lines of a text, without their newlines. A last line without a newline is a line too.
#[derive(Drop)]
pub struct Lines<'a> {
    rest: &'a [u8],
}

impl<'a> Model for Lines<'a> {
    ghost use Rattle.std.specs.Prelude.{List, ℕ};
    ghost use Rattle.retro_text.specs.Lines.{lines_in};

    ghost Value = { List (List ℕ) };

    ghost view = { λ a. lines_in a.rest.now };
}

impl<'a> Lines<'a> {
    /// Returns the lines of a text.
    pub fn of(text: &'a [u8]) -> Lines<'a>
        ensures { result ≡ lines_in text.entry.now }
    {
        Lines { rest: text }
    }
}

impl<'a> Iterator for Lines<'a> {
    ghost use Rattle.std.specs.Iterator.{YieldsFirstRef, item_count};

    type Item = &'a [u8];

    ghost next_gives = { YieldsFirstRef (λ lines. lines) };

    ghost remaining = { item_count (λ lines. lines) };

    #[tactic(auto, using(crate::proofs::LineLemmas::first_line))]
    fn next(&mut self) -> Option<&'a [u8]> {
        if self.rest.is_empty() {
            return None;
        }
        match memchr(b'\n', self.rest) {
            Some(end) => {
                let line = &self.rest[..end];
                self.rest = &self.rest[end + 1..];
                Some(line)
            }
            None => {
                let line = self.rest;
                self.rest = &[];
                Some(line)
            }
        }
    }
}
