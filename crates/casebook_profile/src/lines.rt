//! Why lines aren't understood: the first reason, in the order of the line.
ghost use Rattle.std.specs.Prelude.{◌≡◌, [], IfOk, map, option_map};
ghost use Rattle.retro_syntax.specs.Parsing.{join};
ghost use Rattle.retro_syntax.specs.Tree.{chain, loop};
ghost use Rattle.retro_syntax.specs.View.{and_or_of, commands_of, pipeline_of, simple_view, view, word_view};
ghost use Rattle.retro_shell.specs.inner.Trees.{arms_with};
ghost use Rattle.casebook_profile.specs.Lines as Lines;
ghost use Rattle.casebook_profile.specs.inner.Scopes.{knows, scope_view};

use crate::NoMem;
use crate::commands::{stages_obstacle, unless_clear};
use crate::knowledge::Knowledge;
use crate::scope::Scope;
use crate::variables::is_special;
use crate::words::{are_clear, are_plain_words};
use casebook_usage::Obstacle;
use retro_syntax::tree::{
    AndOr, Assignment, Command, Commands, Conditional, Connector, Loop, Pipeline, Simple,
};
use retro_syntax::{Refused, parse};
use std::alloc::Global;

/// Returns the assignments that a simple command makes.
fn set_by_simple(simple: &Simple) -> &[Assignment]
    ensures { map (λ a. a.name) result.now ≡ Lines.set_by_simple (simple_view simple.entry.now) }
{
    match simple {
        Simple::Assignments(all) => all.as_slice(),
        Simple::Command(_) => &[],
    }
}

/// Returns the assignments that a pipe surely makes: none if it has several commands.
fn set_by_stages(stages: &[Simple]) -> &[Assignment]
    ensures { map (λ a. a.name) result.now
        ≡ Lines.set_by_stages (map simple_view stages.entry.now) }
{
    match stages {
        [only] => set_by_simple(only),
        [] | [_, _, ..] => &[],
    }
}

/// Returns the assignments that a command surely makes.
#[tactic(auto, using(retro_syntax::proofs::ViewLemmas::view_pipe, retro_syntax::proofs::ViewLemmas::view_if, retro_syntax::proofs::ViewLemmas::view_if_else, retro_syntax::proofs::ViewLemmas::view_for))]
fn set_by_command(command: &Command) -> &[Assignment]
    ensures { map (λ a. a.name) result.now ≡ Lines.set_by_command (view command.entry.now) }
{
    match command {
        Command::Pipe(stages) => set_by_stages(stages.as_slice()),
        Command::If(_) => &[],
        Command::IfElse(_, _) => &[],
        Command::For(_) => &[],
    }
}

/// Returns the assignments that an and-or list surely makes: those of its first pipeline.
fn set_by(and_or: &AndOr<Command>) -> &[Assignment]
    ensures { map (λ a. a.name) result.now ≡ Lines.set_by (and_or_of view and_or.entry.now) }
{
    match and_or.before.as_slice() {
        [first, ..] => set_by_command(&first.0.command),
        [] => set_by_command(&and_or.last.command),
    }
}

/// Returns why a list isn't understood, or `None` if it is.
#[cycle(lines)]
fn list_obstacle<'a>(
    alloc: Global,
    scope: &Scope<'_, 'a>,
    commands: &'a Commands<Command>,
) -> Result<Option<Obstacle>, NoMem>
    ensures { IfOk result (λ found. found
        ≡ Lines.list_obstacle (scope_view scope.now) (commands_of view commands.entry.now)) }
{
    let mut inner = scope.copy(alloc)?;
    for and_or in commands.before.as_slice() {
        if let Some(obstacle) = and_or_obstacle(alloc, &inner, and_or)? {
            return Ok(Some(obstacle));
        }
        inner.set_all(set_by(and_or))?;
    }
    and_or_obstacle(alloc, &inner, &commands.last)
}

/// Returns why an and-or list isn't understood, or `None` if it is.
#[cycle(lines)]
fn and_or_obstacle<'a>(
    alloc: Global,
    scope: &Scope<'_, 'a>,
    and_or: &'a AndOr<Command>,
) -> Result<Option<Obstacle>, NoMem>
    ensures { IfOk result (λ found. found
        ≡ Lines.and_or_obstacle (scope_view scope.now) (and_or_of view and_or.entry.now)) }
{
    match and_or.before.as_slice() {
        [] => command_obstacle(alloc, scope, &and_or.last.command),
        [first, more @ ..] => chain_obstacle(alloc, scope, first, more, &and_or.last),
    }
}

/// Returns why several pipelines aren't understood, or `None` if they are.
#[cycle(lines)]
fn chain_obstacle<'a>(
    alloc: Global,
    scope: &Scope<'_, 'a>,
    first: &'a (Pipeline<Command>, Connector),
    more: &'a [(Pipeline<Command>, Connector)],
    last: &'a Pipeline<Command>,
) -> Result<Option<Obstacle>, NoMem>
    ensures { IfOk result (λ found. found ≡ Lines.and_or_obstacle (scope_view scope.now)
        (chain (pipeline_of view first.entry.now.0) first.entry.now.1
        (join (map (λ j. (pipeline_of view j.0, j.1)) more.entry.now)
        (pipeline_of view last.entry.now)))) }
{
    if let Some(obstacle) = command_obstacle(alloc, scope, &first.0.command)? {
        return Ok(Some(obstacle));
    }
    let mut inner = scope.copy(alloc)?;
    inner.set_all(set_by_command(&first.0.command))?;
    rest_obstacle(alloc, &inner, more, last)
}

/// Returns why the pipelines after the first one of an and-or list aren't understood, or `None` if
/// they are.
#[cycle(lines)]
fn rest_obstacle<'a>(
    alloc: Global,
    scope: &Scope<'_, 'a>,
    before: &'a [(Pipeline<Command>, Connector)],
    last: &'a Pipeline<Command>,
) -> Result<Option<Obstacle>, NoMem>
    ensures { IfOk result (λ found. found ≡ Lines.rest_obstacle (scope_view scope.now)
        (join (map (λ j. (pipeline_of view j.0, j.1)) before.entry.now)
        (pipeline_of view last.entry.now))) }
{
    for joint in before {
        if let Some(obstacle) = command_obstacle(alloc, scope, &joint.0.command)? {
            return Ok(Some(obstacle));
        }
    }
    command_obstacle(alloc, scope, &last.command)
}

/// Returns why a pipe, an `if` or a `for` isn't understood, or `None` if it is.
#[cycle(lines)]
#[tactic(auto, using(retro_syntax::proofs::ViewLemmas::view_pipe))]
fn command_obstacle<'a>(
    alloc: Global,
    scope: &Scope<'_, 'a>,
    command: &'a Command,
) -> Result<Option<Obstacle>, NoMem>
    ensures { IfOk result (λ found. found
        ≡ Lines.command_obstacle (scope_view scope.now) (view command.entry.now)) }
{
    match command {
        Command::Pipe(stages) => stages_obstacle(alloc, scope, stages.as_slice()),
        Command::If(parts) => if_obstacle(alloc, scope, parts, None),
        Command::IfElse(parts, other) => if_obstacle(alloc, scope, parts, Some(other)),
        Command::For(parts) => for_obstacle(alloc, scope, parts),
    }
}

/// Returns why an `if`, with the list after its `else`, isn't understood, or `None` if it is.
#[cycle(lines)]
fn if_obstacle<'a>(
    alloc: Global,
    scope: &Scope<'_, 'a>,
    parts: &'a Conditional<Command>,
    other: Option<&'a Commands<Command>>,
) -> Result<Option<Obstacle>, NoMem>
    ensures { IfOk result (λ found. found ≡ Lines.arms_obstacle (scope_view scope.now)
        (arms_with parts.entry.now.before.items parts.entry.now
        (option_map (λ e. commands_of view e.now) other.entry))) }
{
    for arm in parts.before.as_slice() {
        if let Some(obstacle) = arm_obstacle(alloc, scope, &arm.0, &arm.1)? {
            return Ok(Some(obstacle));
        }
    }
    if let Some(obstacle) = arm_obstacle(alloc, scope, &parts.condition, &parts.consequence)? {
        return Ok(Some(obstacle));
    }
    match other {
        None => Ok(None),
        Some(commands) => list_obstacle(alloc, scope, commands),
    }
}

/// Returns why a condition or the list that it guards isn't understood, or `None` if both are.
#[cycle(lines)]
fn arm_obstacle<'a>(
    alloc: Global,
    scope: &Scope<'_, 'a>,
    condition: &'a Commands<Command>,
    consequence: &'a Commands<Command>,
) -> Result<Option<Obstacle>, NoMem>
    ensures { IfOk result (λ found. found ≡ Lines.arm_obstacle (scope_view scope.now)
        (commands_of view condition.entry.now) (commands_of view consequence.entry.now)) }
{
    if let Some(obstacle) = list_obstacle(alloc, scope, condition)? {
        return Ok(Some(obstacle));
    }
    list_obstacle(alloc, scope, consequence)
}

/// Returns why a `for` isn't understood, or `None` if it is.
#[cycle(lines)]
fn for_obstacle<'a>(
    alloc: Global,
    scope: &Scope<'_, 'a>,
    parts: &'a Loop<Command>,
) -> Result<Option<Obstacle>, NoMem>
    ensures { IfOk result (λ found. found ≡ Lines.command_obstacle (scope_view scope.now)
        (loop parts.entry.now.name (map word_view parts.entry.now.words.items)
        (commands_of view parts.entry.now.body))) }
{
    if let Some(obstacle) = head_obstacle(scope, parts) {
        return Ok(Some(obstacle));
    }
    let mut inner = scope.copy(alloc)?;
    if are_plain_words(alloc, parts.words.as_slice())? {
        inner.enter(&parts.name)?;
    } else {
        inner.set(&parts.name)?;
    }
    list_obstacle(alloc, &inner, &parts.body)
}

/// Returns why the variable and the words of a `for` aren't understood, or `None` if they are.
fn head_obstacle(scope: &Scope<'_, '_>, parts: &Loop<Command>) -> Option<Obstacle>
    ensures { result ≡ Lines.loop_obstacle (scope_view scope.now) parts.now.name
        (map word_view parts.now.words.items) }
{
    if is_special(&parts.name) {
        return Some(Obstacle::Form);
    }
    unless_clear(!scope.is_loop(&parts.name) && are_clear(scope, parts.words.as_slice()))
}

/// Returns why a text that a session runs isn't understood, or `None` if it is.
#[tactic(auto, unfolding(crate::specs::Lines::text_obstacle))]
pub(crate) fn text_obstacle(
    alloc: Global,
    knowledge: &Knowledge<'_>,
    session: u32,
    text: &str,
) -> Result<Option<Obstacle>, NoMem>
    ensures { IfOk result (λ found. found
        ≡ Lines.text_obstacle (record { before = knows knowledge.now session; set = []; loops = [] })
        text.now) }
{
    match parse(alloc, text) {
        Ok(line) => match &line.commands {
            Some(commands) => {
                let scope = Scope::of(alloc, knowledge, session);
                list_obstacle(alloc, &scope, commands)
            }
            None => Ok(None),
        },
        Err(Refused::NoMem) => Err(NoMem),
        Err(_) => Ok(Some(Obstacle::Form)),
    }
}
