//! Why simple commands aren't understood.
ghost use Rattle.std.specs.Prelude.{◌≡◌, IfOk, false, map};
ghost use Rattle.std.specs.List.{list_any};
ghost use Rattle.retro_shell.specs.Expansion as Expansion;
ghost use Rattle.retro_syntax.specs.View.{assignment_view, item_view, simple_view, word_view};
ghost use Rattle.casebook_usage.specs.Shape.{shape_view};
ghost use Rattle.casebook_profile.specs.Commands as Commands;
ghost use Rattle.casebook_profile.specs.Words as Words;
ghost use Rattle.casebook_profile.specs.inner.Scopes.{scope_view};

use crate::NoMem;
use crate::scope::Scope;
use crate::variables::is_special;
use crate::words::{is_clear, is_clear_value, shape_of};
use casebook_usage::{Obstacle, Shape, obstacle_of_use};
use retro_syntax::tree::{Assignment, Direction, Item, Piece, Simple, Word};
use retro_text::Utility;
use std::alloc::Global;

/// Returns an expansion, unless a test holds.
pub(crate) fn unless_clear(is_clear: bool) -> Option<Obstacle>
    ensures { result ≡ Commands.unless_clear is_clear }
{
    if is_clear {
        None
    } else {
        Some(Obstacle::Expansion)
    }
}

/// Returns why an assignment isn't understood, or `None` if it is.
fn assignment_obstacle(scope: &Scope<'_, '_>, assignment: &Assignment) -> Option<Obstacle>
    ensures { result
        ≡ Commands.assignment_obstacle (scope_view scope.now) (assignment_view assignment.now) }
{
    if is_special(&assignment.name) {
        return Some(Obstacle::Form);
    }
    unless_clear(!scope.is_loop(&assignment.name) && is_clear_value(scope, assignment))
}

/// Returns why assignments aren't understood, or `None` if they are.
fn assignments_obstacle<'a>(
    alloc: Global,
    scope: &Scope<'_, 'a>,
    all: &'a [Assignment],
) -> Result<Option<Obstacle>, NoMem>
    ensures { IfOk result (λ found. found
        ≡ Commands.assignments_obstacle (scope_view scope.now)
        (map assignment_view all.entry.now)) }
{
    let mut inner = scope.copy(alloc)?;
    for assignment in all {
        if let Some(obstacle) = assignment_obstacle(&inner, assignment) {
            return Ok(Some(obstacle));
        }
        inner.set(&assignment.name)?;
    }
    Ok(None)
}

/// Returns whether an item makes a file the standard input.
fn is_input(item: &Item) -> bool
    ensures { result ≡ Commands.is_input (item_view item.now) }
{
    matches!(item, Item::Redirect(Direction::From, _))
}

/// Returns whether one of some items makes a file the standard input.
fn has_input(items: &[Item]) -> bool
    ensures { result ≡ list_any Commands.is_input (map item_view items.now) }
{
    let mut rest = items;
    while let [first, more @ ..] = rest {
        if is_input(first) {
            return true;
        }
        rest = more;
    }
    false
}

/// Returns the words of a command that aren't words of redirections.
fn arguments(alloc: Global, items: &[Item]) -> Result<Vec<&Word>, NoMem>
    ensures { IfOk result (λ words. map (λ w. word_view w.now) words.items
        ≡ Expansion.arguments (map item_view items.entry.now)) }
{
    let mut words = Vec::new(alloc);
    for item in items {
        match item {
            Item::Argument(word) => words.push(word)?,
            Item::Redirect(_, _) => (),
        }
    }
    Ok(words)
}

/// Returns whether the words of redirections are read alike.
fn are_clear_targets(scope: &Scope<'_, '_>, items: &[Item]) -> bool
    ensures { result ≡ Commands.are_clear (scope_view scope.now)
        (Commands.targets (map item_view items.now)) }
{
    let mut rest = items;
    while let [first, more @ ..] = rest {
        if let Item::Redirect(_, word) = first
            && !is_clear(scope, word)
        {
            return false;
        }
        rest = more;
    }
    true
}

/// Returns the utility that a word is literally: one unquoted piece.
fn utility_of(word: &Word) -> Option<Utility>
    ensures { result ≡ Commands.utility_of (word_view word.now) }
{
    match word.pieces.as_slice() {
        [Piece::Plain(text)] => Utility::of(text),
        _ => None,
    }
}

/// Returns whether all words are read alike.
fn are_clear(scope: &Scope<'_, '_>, words: &[&Word]) -> bool
    ensures { result ≡ Commands.are_clear (scope_view scope.now)
        (map (λ w. word_view w.now) words.now) }
{
    let mut rest = words;
    while let [first, more @ ..] = rest {
        if !is_clear(scope, first) {
            return false;
        }
        rest = more;
    }
    true
}

/// Returns what is known of each word before its line runs.
fn shapes_of(alloc: Global, scope: &Scope<'_, '_>, words: &[&Word]) -> Result<Vec<Shape>, NoMem>
    ensures { IfOk result (λ shapes. map shape_view shapes.items
        ≡ map (Words.shape_of (scope_view scope.now)) (map (λ w. word_view w.now) words.now)) }
{
    let mut shapes = Vec::new(alloc);
    for word in words {
        shapes.push(shape_of(alloc, scope, word)?)?;
    }
    Ok(shapes)
}

/// Returns why a call isn't understood, or `None` if it is.
fn call_obstacle(
    alloc: Global,
    scope: &Scope<'_, '_>,
    has_input: bool,
    name: &Word,
    operands: &[&Word],
) -> Result<Option<Obstacle>, NoMem>
    ensures { IfOk result (λ found. found
        ≡ Commands.call_obstacle (scope_view scope.now) has_input
        (Commands.utility_of (word_view name.now)) (map (λ w. word_view w.now) operands.now)) }
{
    let Some(utility) = utility_of(name) else {
        return Ok(Some(Obstacle::Command));
    };
    if !are_clear(scope, operands) {
        return Ok(Some(Obstacle::Expansion));
    }
    let shapes = shapes_of(alloc, scope, operands)?;
    obstacle_of_use(alloc, utility, has_input, shapes.as_slice())
}

/// Returns why the words of a command aren't understood, or `None` if they are.
fn words_obstacle(
    alloc: Global,
    scope: &Scope<'_, '_>,
    has_input: bool,
    words: &[&Word],
) -> Result<Option<Obstacle>, NoMem>
    ensures { IfOk result (λ found. found
        ≡ Commands.words_obstacle (scope_view scope.now) has_input
        (map (λ w. word_view w.now) words.now)) }
{
    match words {
        [] => Ok(None),
        [name, operands @ ..] => call_obstacle(alloc, scope, has_input, name, operands),
    }
}

/// Returns why a command isn't understood, or `None` if it is.
fn command_obstacle(
    alloc: Global,
    scope: &Scope<'_, '_>,
    is_piped: bool,
    items: &[Item],
) -> Result<Option<Obstacle>, NoMem>
    ensures { IfOk result (λ found. found
        ≡ Commands.command_obstacle (scope_view scope.now) is_piped (map item_view items.now)) }
{
    let words = arguments(alloc, items)?;
    let has_input = is_piped || has_input(items);
    if let Some(obstacle) = words_obstacle(alloc, scope, has_input, words.as_slice())? {
        return Ok(Some(obstacle));
    }
    Ok(unless_clear(are_clear_targets(scope, items)))
}

/// Returns why a simple command isn't understood, or `None` if it is. `is_piped` says whether its
/// standard input is a pipe.
#[tactic(auto, unfolding(crate::specs::Commands::simple_obstacle))]
fn simple_obstacle<'a>(
    alloc: Global,
    scope: &Scope<'_, 'a>,
    is_piped: bool,
    simple: &'a Simple,
) -> Result<Option<Obstacle>, NoMem>
    ensures { IfOk result (λ found. found
        ≡ Commands.simple_obstacle (scope_view scope.now) is_piped
        (simple_view simple.entry.now)) }
{
    match simple {
        Simple::Assignments(all) => assignments_obstacle(alloc, scope, all.as_slice()),
        Simple::Command(items) => command_obstacle(alloc, scope, is_piped, items.as_slice()),
    }
}

/// Returns why the commands of a pipe aren't understood, or `None` if they are.
pub(crate) fn stages_obstacle<'a>(
    alloc: Global,
    scope: &Scope<'_, 'a>,
    stages: &'a [Simple],
) -> Result<Option<Obstacle>, NoMem>
    ensures { IfOk result (λ found. found
        ≡ Commands.stages_obstacle (scope_view scope.now) false
        (map simple_view stages.entry.now)) }
{
    let mut is_piped = false;
    for simple in stages {
        if let Some(obstacle) = simple_obstacle(alloc, scope, is_piped, simple)? {
            return Ok(Some(obstacle));
        }
        is_piped = true;
    }
    Ok(None)
}
