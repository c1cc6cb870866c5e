//! A text together with its line.

ghost use Rattle.std.specs.Prelude.{
  ◌≡◌,
  ◌≢◌,
  IfOk,
  IfSome,
  Err,
  Some,
  is_none,
  is_some,
  option_map,
  string_bytes,
};
ghost use Rattle.retro_syntax.specs.Lines.{Meets, line_view, parsed};
ghost use Rattle.retro_syntax.specs.declared.lines.Refused.TheVariants as refusals;

use crate::lines::{Line, Refused, parse};
use retro_path::NoMem;
use std::alloc::Global;
use std::marker::Model;

/// A text with the result of [`parse`] for it. In contracts it is the text.
#[derive(Drop)]
pub struct Parsed {
    text: String,
    answer: Result<Line, Refused>,
}

impl Model for Parsed {
    ghost use Rattle.std.specs.Prelude.{List, ℕ, string_bytes};
    ghost use Rattle.retro_syntax.specs.Lines.{IsAnswer};

    ghost Value = { List ℕ };

    ghost view = { λ p. string_bytes p.text };

    ghost invariant = { λ p. IsAnswer (string_bytes p.text) p.answer };
}

impl Parsed {
    /// Parses a text, and keeps it with the result.
    pub fn of(alloc: Global, text: String) -> Result<Parsed, NoMem>
        ensures { IfOk result (λ p. p ≡ string_bytes text) }
    {
        match parse(alloc, &text) {
            Err(Refused::NoMem) => Err(NoMem),
            answer => Ok(Parsed { text, answer }),
        }
    }

    /// Returns the text.
    pub fn text(&self) -> &str
        ensures { result.now ≡ self.now }
    {
        &self.text
    }

    /// Returns the line that the text spells, or `None` if the text is refused.
    pub fn line(&self) -> Option<&Line>
        ensures { option_map (λ line. line_view line.now) result ≡ parsed self.now }
    {
        match &self.answer {
            Ok(line) => Some(line),
            Err(_) => None,
        }
    }

    /// Returns why the text is refused, or `None` if it spells a line. Never returns `NoMem`.
    pub fn refused(&self) -> Option<Refused>
        ensures meets { IfSome result (λ why. Meets self.now (Err why) × (why ≢ refusals.NoMem)) }
        ensures found { is_some result ≡ is_none (parsed self.now) }
    {
        match &self.answer {
            Ok(_) => None,
            Err(why) => Some(*why),
        }
    }
}
