//! Simple commands (XCU 2.9.1).
ghost use Rattle.std.specs.Prelude.{◌≡◌, IfOk, map};
ghost use Rattle.retro_local.specs.Runs.{Computes, Extends};
ghost use Rattle.retro_syntax.specs.View.{item_view, simple_view};
ghost use Rattle.retro_shell.specs.Expansion.{arguments, fields};
ghost use Rattle.retro_shell.specs.Simple.{command_of, simple};

use crate::assignment::assign;
use crate::call::call;
use crate::context::Context;
use crate::diagnostics::refusal;
use crate::expansion::expand_items;
use crate::fields::fields_fit;
use crate::redirection::redirect;
use crate::streams::Streams;
use crate::target::Target;
use retro_syntax::tree::{Item, Simple};
use retro_tree::{NoMem, View};
use retro_utils::{Done, Input, Local};
use std::alloc::Global;

/// Runs a command of words and redirections: expands the words, makes the redirections, calls the
/// utility, and delivers its output.
fn run_items<V: View>(
    alloc: Global,
    context: Context,
    items: &[Item],
    input: Input,
    local: &mut Local<V>,
) -> Result<Done, NoMem>
    ensures means { IfOk result (λ done. Computes local.old local.new (λ s.
        command_of context (fields context s (arguments (map item_view items.now)))
        (map item_view items.now) input s) done) }
    ensures extends { Extends context.place.sid local.old local.new }
{
    let fields = expand_items(alloc, context, items, local)?;
    if !fields_fit(&fields) {
        return Ok(refusal(alloc, "argument list too long", 126)?);
    }
    let io = Streams {
        input,
        output: Target::Standard,
    };
    match redirect(alloc, context, items, io, local)? {
        Ok(io) => {
            let Streams { input, output } = io;
            let done = call(alloc, context.place, &fields, input, local)?;
            Ok(output.deliver(alloc, done, local)?)
        }
        Err(failed) => Ok(failed),
    }
}

/// Runs a simple command with its input. The output in the result is what isn't redirected.
#[tactic(auto, unfolding(crate::specs::Simple::simple))]
pub(crate) fn run_simple<V: View>(
    alloc: Global,
    context: Context,
    command: &Simple,
    input: Input,
    local: &mut Local<V>,
) -> Result<Done, NoMem>
    ensures means { IfOk result (λ done. Computes local.old local.new
        (simple context (simple_view command.now) input) done) }
    ensures extends { Extends context.place.sid local.old local.new }
{
    match command {
        Simple::Assignments(assignments) => Ok(assign(alloc, context, assignments, local)?),
        Simple::Command(items) => Ok(run_items(alloc, context, items, input, local)?),
    }
}
