//! Constructors of commands.

ghost use Rattle.std.specs.Prelude.{◌≡◌, IfOk, map};
ghost use Rattle.retro_syntax.specs.Tree;
ghost use Rattle.retro_syntax.specs.View.{
  view,
  arms_of,
  arms_else_of,
  commands_of,
  word_view,
  simple_view,
};

use crate::tree::{Command, Commands, Conditional, Loop, Simple};
use retro_path::NoMem;
use std::alloc::Global;

/// Returns an `if` without `else`.
pub fn conditional(alloc: Global, parts: Conditional<Command>) -> Result<Command, NoMem>
    ensures { IfOk result (λ c. view c ≡ Tree.conditional (arms_of view parts)) }
{
    Ok(Command::If(Box::new(alloc, parts)?))
}

/// Returns a pipe of these stages.
#[tactic(auto, unfolding(crate::specs::View::view))]
pub fn pipe(stages: Vec<Simple>) -> Command
    ensures { view result ≡ Tree.simples (map simple_view stages.items) }
{
    Command::Pipe(stages)
}

/// Returns an `if` with `alternative` after its `else`.
pub fn conditional_else(
    alloc: Global,
    parts: Conditional<Command>,
    alternative: Commands<Command>,
) -> Result<Command, NoMem>
    ensures { IfOk result (λ c. view c ≡ Tree.conditional (arms_else_of view parts alternative)) }
{
    let parts = Box::new(alloc, parts)?;
    Ok(Command::IfElse(parts, Box::new(alloc, alternative)?))
}

/// Returns a `for`.
pub fn repetition(alloc: Global, parts: Loop<Command>) -> Result<Command, NoMem>
    ensures { IfOk result (λ c. view c
        ≡ Tree.loop parts.name (map word_view parts.words.items)
        (commands_of view parts.body)) }
{
    Ok(Command::For(Box::new(alloc, parts)?))
}
