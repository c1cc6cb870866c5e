//! Texts that can mean to Retro's shell what they mean to the machine's, by their form.
ghost use Rattle.std.specs.Prelude.{◌≡◌, IfOk, map};
ghost use Rattle.std.specs.List.{list_any};
ghost use Rattle.std.specs.Option.{option_copied};
ghost use Rattle.retro_tree.specs.Node.{bytes_in};
ghost use Rattle.retro_tree.specs.Tree.{node_in};
ghost use Rattle.casebook_typed.specs.Values.{change_value, line_value, seen_value};
ghost use Rattle.casebook_import.specs.Effects.{session_number};
ghost use Rattle.casebook_import.specs.Understood.{has_opaque, is_in_opaque, is_left};
ghost use Rattle.casebook_import.specs.Understood.{is_understood, named, text_if, touch_opaque};
ghost use Rattle.casebook_import.specs.Understood.{touched, understood_text};

use crate::NoMem;
use crate::effects::{ending, var_in};
use casebook_explain::shell_path;
use casebook_needs::paths_of;
use casebook_opaque::is_opaque;
use casebook_profile::obstacle_in;
use casebook_shell::ShellRules;
use casebook_typed::{PathChange, Seen, TypedLine};
use retro_tree::{Bytes, Path, State, Text, VarName};
use std::alloc::Global;
use std::str::from_utf8;

/// Returns whether what a file holds stands for something else.
fn has_opaque(bytes: Option<&Bytes>) -> bool
    ensures { result ≡ has_opaque (option_copied bytes.entry) }
{
    match bytes {
        Some(bytes) => is_opaque(bytes.as_slice()),
        None => false,
    }
}

/// Returns whether one of some paths holds a text that stands for something else.
fn are_opaque(state: &State, paths: &[Path]) -> bool
    ensures { result ≡ list_any (λ q. has_opaque (bytes_in (node_in q state.now.tree))) paths.now }
{
    for path in paths {
        if has_opaque(state.file(path)) {
            return true;
        }
    }
    false
}

/// Returns whether a path, or one above it, holds a text that stands for something else.
fn is_in_opaque(alloc: Global, state: &State, path: &Path) -> Result<bool, NoMem>
    ensures { IfOk result (λ is. is ≡ is_in_opaque state.now path.now) }
{
    Ok(are_opaque(state, path.prefixes(alloc)?.as_slice()))
}

/// Returns whether one of some paths, or one above it, holds such a text.
fn touch_opaque(alloc: Global, state: &State, paths: &[Path]) -> Result<bool, NoMem>
    ensures { IfOk result (λ touch. touch ≡ touch_opaque state.now paths.now) }
{
    for path in paths {
        if is_in_opaque(alloc, state, path)? {
            return Ok(true);
        }
    }
    Ok(false)
}

/// Returns whether one of the paths that were changed, or one above it, held such a text.
fn changes_touch_opaque(
    alloc: Global,
    state: &State,
    changes: &[PathChange<'_>],
) -> Result<bool, NoMem>
    ensures { IfOk result (λ touch. touch ≡ touch_opaque state.now
        (map (λ change. change.path) (map change_value changes.now))) }
{
    for change in changes {
        if is_in_opaque(alloc, state, &change.path)? {
            return Ok(true);
        }
    }
    Ok(false)
}

/// Returns whether a line read, listed or changed such a text.
fn seen_touches(alloc: Global, state: &State, seen: &Seen<'_>) -> Result<bool, NoMem>
    ensures { IfOk result (λ touch.
        touch ≡ touch_opaque state.now (touched (seen_value seen.now))) }
{
    let read = touch_opaque(alloc, state, seen.read.as_slice())?;
    if read {
        return Ok(true);
    }
    let listed = touch_opaque(alloc, state, seen.listed.as_slice())?;
    if listed {
        return Ok(true);
    }
    let changed = changes_touch_opaque(alloc, state, seen.changes.as_slice())?;
    Ok(changed)
}

/// Returns whether the functions, aliases and options of a session leave a text as it is.
fn is_left(alloc: Global, state: &State, session: u32, text: &[u8]) -> Result<bool, NoMem>
    ensures { IfOk result (λ left. left ≡ is_left state.now session text.now) }
{
    let path = shell_path(alloc, session)?;
    match state.file(&path) {
        Some(shell) => {
            let rules = ShellRules::of(alloc, shell.as_slice())?;
            rules.leave(alloc, text)
        }
        None => Ok(false),
    }
}

/// Returns the paths that the words of a session's text name.
#[tactic(auto, unfolding(casebook_needs::specs::Needs::home_in))]
fn named(alloc: Global, state: &State, session: u32, text: &[u8]) -> Result<Vec<Path>, NoMem>
    ensures { IfOk result (λ paths. paths.items ≡ named state.now session text.now) }
{
    let home = VarName::home(alloc)?;
    let directory = state.cwd(alloc, session)?;
    paths_of(alloc, &directory, var_in(state, session, &home), text)
}

/// Returns whether a text is understood that a session runs in a state.
fn is_understood(alloc: Global, state: &State, session: u32, text: &str) -> Result<bool, NoMem>
    ensures { IfOk result (λ is. is ≡ is_understood state.now session text.now) }
{
    if obstacle_in(alloc, state, session, text)?.is_some() {
        return Ok(false);
    }
    if !is_left(alloc, state, session, text.as_bytes())? {
        return Ok(false);
    }
    let paths = named(alloc, state, session, text.as_bytes())?;
    Ok(!touch_opaque(alloc, state, paths.as_slice())?)
}

/// Returns a text, if it is UTF-8 and understood, and what its line touched isn't opaque.
#[tactic(auto, using(crate::proofs::Texts::texts))]
fn text_if(
    alloc: Global,
    state: &State,
    session: u32,
    seen: &Seen<'_>,
    text: &[u8],
) -> Result<Option<Text>, NoMem>
    ensures { IfOk result (λ found.
        found ≡ text_if state.now session (seen_value seen.now) text.now) }
{
    let Ok(text) = from_utf8(text) else {
        return Ok(None);
    };
    if !is_understood(alloc, state, session, text)? || seen_touches(alloc, state, seen)? {
        return Ok(None);
    }
    Ok(Some(Text::of(String::from_str(alloc, text)?)))
}

/// Returns the text of a line that ended, if it is understood in the state before the line.
#[tactic(auto, unfolding(crate::specs::Understood::understood_text))]
pub(crate) fn understood_text(
    alloc: Global,
    state: &State,
    session: u32,
    line: &TypedLine<'_>,
) -> Result<Option<Text>, NoMem>
    requires { session ≡ session_number line.now.owner }
    ensures { IfOk result (λ text. text ≡ understood_text state.now (line_value line.now)) }
{
    if ending(line.extent, &line.shown.event).is_none() {
        return Ok(None);
    }
    match line.text {
        Some(text) => text_if(alloc, state, session, &line.seen, text.as_slice()),
        None => Ok(None),
    }
}
