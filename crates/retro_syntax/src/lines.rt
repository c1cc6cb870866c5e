//! Lines, and the texts that spell them.

ghost use Rattle.std.specs.Prelude.{◌≡◌, Option, Some, List, ℕ, map, nat_le, true};
ghost use Rattle.retro_syntax.specs.inner.Failing.{Gives};
ghost use Rattle.retro_syntax.specs.Depth.{deepest_nesting, line_depth};
ghost use Rattle.retro_syntax.specs.Lines as Lines;
ghost use Rattle.retro_syntax.specs.Lines.{
  Answers,
  Meets,
  SpellsWithin,
  TextSpells,
  line_view,
  parsed,
};
ghost use Rattle.retro_syntax.specs.Quoting.{tokens_of};
ghost use Rattle.retro_syntax.specs.Tree as Tree;
ghost use Rattle.retro_syntax.specs.Writing.{HasWriting, Written, are_writable, token_of, written};

use crate::depth::is_shallow;
use crate::lexer::tokens_of;
use crate::parser::commands_of;
use crate::syntax_error::SyntaxError;
use crate::tree::{Command, Commands};
use std::alloc::Global;

/// The greatest length of a line, in bytes.
pub const LONGEST_LINE: usize = 4096;

/// Why a text isn't a line.
#[derive(Clone, Copy, Debug, PartialEq, Eq)]
pub enum Refused {
    /// Refusal 5: the text spells no line of the grammar.
    Unsupported,
    /// Refusal 6: the text is longer than [`LONGEST_LINE`].
    TooLong,
    /// Refusal 7: `if` and `for` nest deeper than 32.
    TooDeep,
    /// Allocation failed.
    NoMem,
}

/// The tree of a line.
#[derive(Drop)]
pub struct Line {
    /// The line's list, or `None` for a blank line.
    pub commands: Option<Commands<Command>>,
}

impl From<SyntaxError> for Refused {
    ghost use Rattle.retro_syntax.specs.Lines.{refused_of};

    ghost from_gives = { λ error refused. refused ≡ refused_of error };

    fn from(error: SyntaxError) -> Refused {
        match error {
            SyntaxError::Unsupported => Refused::Unsupported,
            SyntaxError::NoMem => Refused::NoMem,
        }
    }
}

/// Returns the line that a text spells, whatever its length and depth. Fails with `Unsupported` if
/// it spells none.
#[tactic(auto, unfolding(crate::specs::Lines::line_of))]
fn line_of(alloc: Global, text: &str) -> Result<Line, SyntaxError>
    ensures { Gives line_view result (Lines.line_of text.now) }
{
    let tokens = tokens_of(alloc, text)?;
    if tokens.is_empty() {
        return Ok(Line { commands: None });
    }
    let commands = commands_of(alloc, tokens)?;
    Ok(Line {
        commands: Some(commands),
    })
}

/// Returns whether `if` and `for` nest no deeper than
/// [`DEEPEST_NESTING`](crate::depth::DEEPEST_NESTING) in a line.
fn is_shallow_line(line: &Line) -> bool
    ensures { result ≡ nat_le (line_depth (line_view line.now)) deepest_nesting }
{
    match &line.commands {
        None => true,
        Some(commands) => is_shallow(commands),
    }
}

/// Returns the line that a text spells (XCU 2.2, 2.3, 2.10), if the text and the line keep the
/// limits.
///
/// # Errors
///
/// The first of these that applies: `TooLong` if the text is longer than [`LONGEST_LINE`],
/// `Unsupported` if it spells no line of the grammar, `TooDeep` if its line nests deeper than 32.
pub fn parse(alloc: Global, text: &str) -> Result<Line, Refused>
    ensures meets { Meets text.now result }
    ensures function { Answers text.now result }
{
    if text.len() > LONGEST_LINE {
        return Err(Refused::TooLong);
    }
    let line = line_of(alloc, text)?;
    if !is_shallow_line(&line) {
        return Err(Refused::TooDeep);
    }
    Ok(line)
}

/// States that a text spells at most one line.
pub fn one_line()
    ensures { (text : List ℕ) (k l : Option Tree.Commands) → TextSpells text k
        → TextSpells text l → k ≡ l }
{}

/// States that the definition `parsed` gives exactly the line that a text spells within the
/// limits.
pub fn parsed_is_spelling()
    ensures read { (text : List ℕ) (line : Option Tree.Commands) → parsed text ≡ Some line
        → SpellsWithin text line }
    ensures spelled { (text : List ℕ) (line : Option Tree.Commands) → SpellsWithin text line
        → parsed text ≡ Some line }
{}

/// States that tokens are read back from their canonical writing, and that all tokens of a text
/// can be written so. The canonical writing has quoted parts in double quotes, parameters as
/// `${name}`, and a blank after each token.
pub fn writing_is_read()
    ensures read { (ws : List Written) → are_writable ws ≡ true
        → tokens_of (written ws) ≡ Some (map token_of ws) }
    ensures every { (cs : List ℕ) (ts : List Tree.Token) → tokens_of cs ≡ Some ts
        → HasWriting ts }
{}
