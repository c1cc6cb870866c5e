//! What is known of a word before its line runs.
ghost use Rattle.std.specs.Prelude.{◌≡◌, IfOk, string_bytes};
ghost use Rattle.casebook_usage.specs.Obstacles.{is_one_field, sample};
ghost use Rattle.casebook_usage.specs.Obstacles.{is_no_newline, may_be_echo_option};
ghost use Rattle.casebook_usage.specs.Shape.{shape_view};

use crate::echo::is_echo_option;
use retro_path::NoMem;
use std::alloc::Global;

/// A word of a command, as far as it is known before the line runs.
#[derive(Debug, Drop)]
pub enum Shape {
    /// One field, with this text.
    Literal(String),
    /// One field of unknown text that isn't empty and doesn't begin with a dash.
    Operand,
    /// Fields of unknown text, which together have a character that no option of `echo` has.
    Phrase,
    /// Any fields.
    Loose,
}

impl Shape {
    /// Returns whether the word becomes one field, which is known or is an operand.
    pub(crate) fn is_one_field(&self) -> bool
        ensures { result ≡ is_one_field (shape_view self.now) }
    {
        matches!(self, Shape::Literal(_) | Shape::Operand)
    }

    /// Returns a field that the word may become.
    pub(crate) fn sample(&self, alloc: Global) -> Result<String, NoMem>
        ensures { IfOk result (λ field. string_bytes field ≡ sample (shape_view self.now)) }
    {
        match self {
            Shape::Literal(text) => Ok(text.clone()?),
            Shape::Operand | Shape::Phrase | Shape::Loose => Ok(String::from_str(alloc, "x")?),
        }
    }

    /// Returns whether the word is `-n`.
    pub(crate) fn is_no_newline(&self) -> bool
        ensures { result ≡ is_no_newline (shape_view self.now) }
    {
        match self {
            Shape::Literal(text) => text.as_str() == "-n",
            Shape::Operand | Shape::Phrase | Shape::Loose => false,
        }
    }

    /// Returns whether bash's `echo` may read the word's first field as options.
    pub(crate) fn may_be_echo_option(&self) -> bool
        ensures { result ≡ may_be_echo_option (shape_view self.now) }
    {
        match self {
            Shape::Literal(text) => is_echo_option(text.as_str()),
            Shape::Operand | Shape::Phrase => false,
            Shape::Loose => true,
        }
    }
}
