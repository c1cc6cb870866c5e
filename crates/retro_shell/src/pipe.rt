//! Pipes (XCU 2.9.2).
ghost use Rattle.std.specs.Prelude.{◌≡◌, OnOk, map};
ghost use Rattle.retro_local.specs.Runs.{Computes, Extends};
ghost use Rattle.retro_syntax.specs.View.{simple_view};
ghost use Rattle.retro_utils.specs.Outcomes.{nothing_done};
ghost use Rattle.retro_shell.specs.Commands.{is_several, pipe, stages};

use crate::context::Context;
use crate::execution::Execution;
use crate::simple::run_simple;
use retro_syntax::tree::Simple;
use retro_tree::{NoMem, View};
use retro_utils::{Done, Input, Place};
use std::alloc::Global;

/// Runs the commands of a pipe from left to right, each on the output of the one before it.
fn run_stages<V: View>(
    alloc: Global,
    context: Context,
    commands: &[Simple],
    execution: &mut Execution<V>,
) -> Result<(), NoMem>
    ensures means { OnOk result (Computes execution.old.local execution.new.local
        (stages context (map simple_view commands.now) (nothing_done 0) execution.old.progress)
        execution.new.progress) }
    ensures extends { Extends context.place.sid execution.old.local execution.new.local }
{
    let mut done = Done::nothing(alloc, 0);
    for command in commands {
        let Done {
            out,
            err,
            status: _,
        } = done;
        let input = Input::Bytes(out);
        done = run_simple(alloc, context, command, input, &mut execution.local)?;
        execution.progress.print(err.as_slice())?;
    }
    execution.progress.complete(done)
}

/// Returns whether there are two commands or more.
fn is_several(commands: &[Simple]) -> bool
    ensures { result ≡ is_several (map simple_view commands.now) }
{
    match commands {
        [] | [_] => false,
        [_, _, ..] => true,
    }
}

/// Runs a pipe. If it has two commands or more, each runs in a subshell.
#[tactic(auto, unfolding(crate::specs::Commands::pipe))]
pub(crate) fn run_pipe<V: View>(
    alloc: Global,
    sid: u32,
    commands: &[Simple],
    execution: &mut Execution<V>,
) -> Result<(), NoMem>
    ensures means { OnOk result (Computes execution.old.local execution.new.local
        (pipe sid (map simple_view commands.now) execution.old.progress) execution.new.progress) }
    ensures extends { Extends sid execution.old.local execution.new.local }
{
    let place = Place {
        sid,
        sub: is_several(commands),
    };
    let context = Context {
        place,
        last: execution.progress.last,
    };
    Ok(run_stages(alloc, context, commands, execution)?)
}
