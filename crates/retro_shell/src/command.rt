//! Lists, `if` and `for` (XCU 2.9.2 to 2.9.4).
ghost use Rattle.std.specs.Prelude.{◌≡◌, ◌≤◌, OnOk, length, map, option_map, string_bytes, true};
ghost use Rattle.retro_local.specs.Runs.{Computes, Extends};
ghost use Rattle.retro_tree.specs.Change.{put_var};
ghost use Rattle.retro_tree.specs.Session.{value_limit};
ghost use Rattle.retro_syntax.specs.Tree.{loop};
ghost use Rattle.retro_syntax.specs.View.{and_or_of, commands_of, pipeline_of, view, word_view};
ghost use Rattle.retro_shell.specs.Commands as Meaning;
ghost use Rattle.retro_shell.specs.inner.Trees.{arms_with};

use crate::context::Context;
use crate::execution::Execution;
use crate::expansion::expand_words;
use crate::fields::fields_fit;
use crate::pipe::run_pipe;
use retro_syntax::tree::{AndOr, Command, Commands, Conditional, Loop, Pipeline};
use retro_tree::{NoMem, Text, VALUE_LIMIT, View};
use retro_utils::Place;
use std::alloc::Global;

/// Runs a list.
#[cycle(run)]
pub(crate) fn run_commands<V: View>(
    alloc: Global,
    sid: u32,
    commands: &Commands<Command>,
    execution: &mut Execution<V>,
) -> Result<(), NoMem>
    ensures means { OnOk result (Computes execution.old.local execution.new.local
        (Meaning.run_commands sid (commands_of view commands.now) execution.old.progress)
        execution.new.progress) }
    ensures extends { Extends sid execution.old.local execution.new.local }
{
    for and_or in commands.before.as_slice() {
        run_and_or(alloc, sid, and_or, execution)?;
    }
    Ok(run_and_or(alloc, sid, &commands.last, execution)?)
}

/// Runs an and-or list. The status so far decides whether the next pipeline runs.
#[cycle(run)]
fn run_and_or<V: View>(
    alloc: Global,
    sid: u32,
    and_or: &AndOr<Command>,
    execution: &mut Execution<V>,
) -> Result<(), NoMem>
    ensures means { OnOk result (Computes execution.old.local execution.new.local
        (Meaning.run_and_or sid true (and_or_of view and_or.now) execution.old.progress)
        execution.new.progress) }
    ensures extends { Extends sid execution.old.local execution.new.local }
{
    let mut runs = true;
    for joint in and_or.before.as_slice() {
        if runs {
            run_pipeline(alloc, sid, &joint.0, execution)?;
        }
        runs = execution.progress.goes_on(joint.1);
    }
    if runs {
        run_pipeline(alloc, sid, &and_or.last, execution)?;
    }
    Ok(())
}

/// Runs a pipeline.
#[cycle(run)]
fn run_pipeline<V: View>(
    alloc: Global,
    sid: u32,
    pipeline: &Pipeline<Command>,
    execution: &mut Execution<V>,
) -> Result<(), NoMem>
    ensures means { OnOk result (Computes execution.old.local execution.new.local
        (Meaning.run_pipeline sid (pipeline_of view pipeline.now) execution.old.progress)
        execution.new.progress) }
    ensures extends { Extends sid execution.old.local execution.new.local }
{
    run_command(alloc, sid, &pipeline.command, execution)?;
    if pipeline.negated {
        execution.progress.negate();
    }
    Ok(())
}

/// Runs a pipe, an `if` or a `for`.
#[cycle(run)]
#[tactic(auto, using(retro_syntax::proofs::ViewLemmas::view_pipe))]
fn run_command<V: View>(
    alloc: Global,
    sid: u32,
    command: &Command,
    execution: &mut Execution<V>,
) -> Result<(), NoMem>
    ensures means { OnOk result (Computes execution.old.local execution.new.local
        (Meaning.run_command sid (view command.now) execution.old.progress)
        execution.new.progress) }
    ensures extends { Extends sid execution.old.local execution.new.local }
{
    match command {
        Command::Pipe(stages) => Ok(run_pipe(alloc, sid, stages, execution)?),
        Command::If(parts) => Ok(run_if(alloc, sid, parts, None, execution)?),
        Command::IfElse(parts, other) => Ok(run_if(alloc, sid, parts, Some(other), execution)?),
        Command::For(parts) => Ok(run_for(alloc, sid, parts, execution)?),
    }
}

/// Runs an `if`, with the list after its `else`, if it has one. If no branch runs, the status is 0.
#[cycle(run)]
fn run_if<V: View>(
    alloc: Global,
    sid: u32,
    parts: &Conditional<Command>,
    other: Option<&Commands<Command>>,
    execution: &mut Execution<V>,
) -> Result<(), NoMem>
    ensures means { OnOk result (Computes execution.old.local execution.new.local
        (Meaning.run_arms sid (arms_with parts.now.before.items parts.now
        (option_map (λ e. commands_of view e.now) other.entry)) execution.old.progress)
        execution.new.progress) }
    ensures extends { Extends sid execution.old.local execution.new.local }
{
    for arm in parts.before.as_slice() {
        run_commands(alloc, sid, &arm.0, execution)?;
        if execution.progress.succeeded() {
            return Ok(run_commands(alloc, sid, &arm.1, execution)?);
        }
    }
    run_commands(alloc, sid, &parts.condition, execution)?;
    if execution.progress.succeeded() {
        return Ok(run_commands(alloc, sid, &parts.consequence, execution)?);
    }
    match other {
        None => execution.progress.set_status(0),
        Some(commands) => run_commands(alloc, sid, commands, execution)?,
    }
    Ok(())
}

/// Runs a `for`: expands its words, and runs its body for each field.
#[cycle(run)]
fn run_for<V: View>(
    alloc: Global,
    sid: u32,
    parts: &Loop<Command>,
    execution: &mut Execution<V>,
) -> Result<(), NoMem>
    ensures means { OnOk result (Computes execution.old.local execution.new.local
        (Meaning.run_command sid (loop parts.now.name (map word_view parts.now.words.items)
        (commands_of view parts.now.body)) execution.old.progress) execution.new.progress) }
    ensures extends { Extends sid execution.old.local execution.new.local }
{
    let context = Context {
        place: Place { sid, sub: false },
        last: execution.progress.last,
    };
    let fields = expand_words(alloc, context, &parts.words, &mut execution.local)?;
    if !fields_fit(&fields) {
        return Ok(execution.progress.complain("argument list too long", 126)?);
    }
    if fields.is_empty() {
        execution.progress.set_status(0);
        return Ok(());
    }
    Ok(run_turns(alloc, sid, parts, &fields, execution)?)
}

/// Runs the body of a `for` for each field, up to the first field over the limit of values.
#[cycle(run)]
fn run_turns<V: View>(
    alloc: Global,
    sid: u32,
    parts: &Loop<Command>,
    fields: &[String],
    execution: &mut Execution<V>,
) -> Result<(), NoMem>
    ensures means { OnOk result (Computes execution.old.local execution.new.local
        (Meaning.turns sid parts.now.name (Meaning.run_commands sid
        (commands_of view parts.now.body)) (map string_bytes fields.now)
        execution.old.progress) execution.new.progress) }
    ensures extends { Extends sid execution.old.local execution.new.local }
{
    for field in fields {
        if field.len() > VALUE_LIMIT {
            return Ok(execution.progress.complain("value too long", 1)?);
        }
        run_turn(alloc, sid, parts, field, execution)?;
    }
    Ok(())
}

/// Sets the variable of a `for`, and runs the body.
#[cycle(run)]
fn run_turn<V: View>(
    alloc: Global,
    sid: u32,
    parts: &Loop<Command>,
    field: &str,
    execution: &mut Execution<V>,
) -> Result<(), NoMem>
    requires limit { length field.now ≤ value_limit }
    ensures means { OnOk result (Computes execution.old.local execution.new.local (λ s.
        Meaning.run_commands sid (commands_of view parts.now.body) execution.old.progress
        (put_var sid parts.now.name field.now s)) execution.new.progress) }
    ensures extends { Extends sid execution.old.local execution.new.local }
{
    let value = Text::of(String::from_str(alloc, field)?);
    execution
        .local
        .set_var(alloc, sid, parts.name.copy()?, value)?;
    Ok(run_commands(alloc, sid, &parts.body, execution)?)
}
