//! What lines left, as effects.
ghost use Rattle.std.specs.Prelude.{◌≡◌, IfOk, OnOk, map, option_map};
ghost use Rattle.std.specs.FinMap as finmap;
ghost use Rattle.std.specs.List.{filter_map};
ghost use Rattle.std.specs.Option.{option_copied, option_to_list};
ghost use Rattle.retro_path.specs.Order.{path_eq};
ghost use Rattle.retro_tree.specs.Session.{session_in};
ghost use Rattle.casebook_typed.specs.Values.{change_value, line_value};
ghost use Rattle.casebook_import.specs.Effects.{ending, line_effect, session_number};
ghost use Rattle.casebook_import.specs.Effects.{shell_bytes, with_cells};
ghost use Rattle.casebook_import.specs.Effects.{with_directory, with_ending, with_nodes};
ghost use Rattle.casebook_import.specs.Effects.{with_said_vars, with_shell, with_vars};
ghost use Rattle.casebook_import.specs.Variables.{changed_var, is_value, unset_var};

use crate::NoMem;
use crate::directories::directory_in;
use crate::nodes::node_of;
use crate::opaque::opaque_bytes;
use crate::said_vars::SaidVars;
use crate::variables::vars_of;
use casebook_explain::shell_path;
use casebook_record::{End, Event};
use casebook_spool::Contents;
use casebook_stand_in::Effect;
use casebook_typed::{Extent, PathChange, TypedLine};
use retro_tree::{Bytes, FILE_LIMIT, Node, Path, State, Text, VarName};
use std::alloc::Global;

/// Sets what is at the paths that were changed.
fn set_nodes(
    alloc: Global,
    contents: &Contents,
    changes: &[PathChange<'_>],
    effect: &mut Effect,
) -> Result<(), NoMem>
    ensures { OnOk result (effect.new
        ≡ with_nodes contents.now (map change_value changes.now) effect.old) }
{
    for change in changes {
        let node = node_of(alloc, contents, change.sight.as_ref(), change.content)?;
        effect.set_node(change.path.copy()?, node)?;
    }
    Ok(())
}

/// Returns the directory of a session.
#[tactic(auto, unfolding(retro_tree::specs::Session::default_session))]
fn has_directory(state: &State, session: u32, path: &Path) -> bool
    ensures { result ≡ path_eq (session_in session state.now.sessions).cwd path.now }
{
    match state.sessions().get(session) {
        Some(found) => found.cwd == *path,
        None => path.is_root(),
    }
}

/// Sets the directory of the line's session, if it is another one than before the line.
fn set_directory(
    alloc: Global,
    state: &State,
    name: &[u8],
    effect: &mut Effect,
) -> Result<(), NoMem>
    ensures { OnOk result (effect.new ≡ with_directory state.now name.now effect.old) }
{
    let directory = directory_in(alloc, state, effect, name)?;
    if has_directory(state, effect.sid(), &directory) {
        return Ok(());
    }
    effect.set_cwd(directory)
}

/// Returns the value that a session has of a variable, if it has one.
#[tactic(auto, unfolding(retro_tree::specs::Session::default_session))]
pub(crate) fn var_in<'s>(state: &'s State, session: u32, name: &VarName) -> Option<&'s Text>
    ensures { option_copied result
        ≡ finmap.get (session_in session state.entry.now.sessions).vars name.now }
{
    match state.sessions().get(session) {
        Some(found) => found.vars.get(name),
        None => None,
    }
}

/// Returns whether a variable has a value.
fn is_value(found: Option<&Text>, text: &Text) -> bool
    ensures { result ≡ is_value (option_copied found.entry) text.now }
{
    match found {
        Some(old) => old.bytes() == text.bytes(),
        None => false,
    }
}

/// Sets a variable, if it has another value than before the line.
fn set_if_changed(
    state: &State,
    name: &VarName,
    text: &Text,
    effect: &mut Effect,
) -> Result<(), NoMem>
    ensures { OnOk result (effect.new ≡ with_cells (option_to_list (changed_var effect.old.sid
        (session_in effect.old.sid state.now.sessions).vars (name.now, text.now))) effect.old) }
{
    if is_value(var_in(state, effect.sid(), name), text) {
        return Ok(());
    }
    effect.set_var(name.copy()?, text.copy()?)
}

/// Sets the variables of the line's session that have another value than before the line.
fn set_changed(state: &State, new: &SaidVars, effect: &mut Effect) -> Result<(), NoMem>
    ensures { OnOk result (effect.new ≡ with_cells (filter_map (changed_var effect.old.sid
        (session_in effect.old.sid state.now.sessions).vars) (finmap.entries new.now)) effect.old) }
{
    for (name, text) in new.iter() {
        set_if_changed(state, name, text, effect)?;
    }
    Ok(())
}

/// Sets a variable to nothing, if it is unset and had a value.
fn set_if_unset(
    alloc: Global,
    new: &SaidVars,
    name: &VarName,
    text: &Text,
    effect: &mut Effect,
) -> Result<(), NoMem>
    ensures { OnOk result (effect.new ≡ with_cells (option_to_list
        (unset_var effect.old.sid new.now (name.now, text.now))) effect.old) }
{
    if new.get(name).is_some() || text.bytes().is_empty() {
        return Ok(());
    }
    effect.set_var(name.copy()?, Text::of(String::new(alloc)))
}

/// Sets the variables of the line's session to nothing that are unset and had a value.
#[tactic(auto, unfolding(retro_tree::specs::Session::default_session))]
fn set_unset(alloc: Global, state: &State, new: &SaidVars, effect: &mut Effect) -> Result<(), NoMem>
    ensures { OnOk result (effect.new ≡ with_cells (filter_map (unset_var effect.old.sid new.now)
        (finmap.entries (session_in effect.old.sid state.now.sessions).vars)) effect.old) }
{
    let old = match state.sessions().get(effect.sid()) {
        Some(session) => &session.vars,
        None => return Ok(()),
    };
    for (name, text) in old.iter() {
        set_if_unset(alloc, new, name, text, effect)?;
    }
    Ok(())
}

/// Sets the variables of the line's session that changed or are unset.
fn set_new_vars(
    alloc: Global,
    state: &State,
    new: &SaidVars,
    effect: &mut Effect,
) -> Result<(), NoMem>
    ensures { OnOk result (effect.new
        ≡ with_vars (session_in effect.old.sid state.now.sessions).vars new.now effect.old) }
{
    set_changed(state, new, effect)?;
    set_unset(alloc, state, new, effect)?;
    Ok(())
}

/// Sets the variables of the line's session, if a record says that they are new.
fn set_vars(
    alloc: Global,
    state: &State,
    said: Option<&Bytes>,
    effect: &mut Effect,
) -> Result<(), NoMem>
    ensures { OnOk result (effect.new
        ≡ with_said_vars state.now (option_map (λ text. text.now) said.entry) effect.old) }
{
    let Some(text) = said else {
        return Ok(());
    };
    match vars_of(alloc, text.as_slice())? {
        Some(new) => set_new_vars(alloc, state, &new, effect),
        None => Ok(()),
    }
}

/// Returns the functions, aliases and options of a session as the bytes of a file.
#[tactic(auto, unfolding(crate::specs::Effects::shell_bytes))]
pub(crate) fn shell_bytes(alloc: Global, text: &Bytes) -> Result<Bytes, NoMem>
    ensures { IfOk result (λ bytes. bytes ≡ shell_bytes text.now) }
{
    if text.len() as u64 <= FILE_LIMIT {
        return text.copy();
    }
    let stands = opaque_bytes(alloc, "the text of a shell", text.as_slice())?;
    Ok(Bytes::of(stands.into_bytes()))
}

/// Sets the functions, aliases and options of the line's session, if they are new.
fn set_shell(alloc: Global, text: Option<&Bytes>, effect: &mut Effect) -> Result<(), NoMem>
    ensures { OnOk result (effect.new
        ≡ with_shell (option_map (λ text. text.now) text.entry) effect.old) }
{
    let Some(text) = text else {
        return Ok(());
    };
    let path = shell_path(alloc, effect.sid())?;
    effect.set_node(path, Node::File(shell_bytes(alloc, text)?))
}

/// Sets what is known of the line's session, and its directory by its name, if the line ended.
fn set_ending(
    alloc: Global,
    state: &State,
    name: &[u8],
    end: Option<&End>,
    effect: &mut Effect,
) -> Result<(), NoMem>
    ensures { OnOk result (effect.new
        ≡ with_ending state.now name.now (option_map (λ end. end.now) end.entry) effect.old) }
{
    let Some(end) = end else {
        return Ok(());
    };
    set_directory(alloc, state, name, effect)?;
    set_vars(alloc, state, end.variables.as_ref(), effect)?;
    set_shell(alloc, end.shell.as_ref(), effect)
}

/// Returns how a line ended, if it did.
pub(crate) fn ending(extent: Extent, event: &Event) -> Option<&End>
    ensures { option_map (λ end. end.now) result ≡ ending extent event.entry.now }
{
    match (extent, event) {
        (Extent::Whole, Event::End(end)) => Some(end),
        _ => None,
    }
}

/// Returns the status of a session. It is 0 if the session doesn't exist.
#[tactic(auto, unfolding(retro_tree::specs::Session::default_session))]
fn status_in(state: &State, session: u32) -> u8
    ensures { result ≡ (session_in session state.now.sessions).status }
{
    match state.sessions().get(session) {
        Some(found) => found.status,
        None => 0,
    }
}

/// Returns what a line of a session left, over the state before it.
#[tactic(auto, unfolding(crate::specs::Effects::line_effect))]
pub(crate) fn line_effect(
    alloc: Global,
    contents: &Contents,
    state: &State,
    session: u32,
    line: &TypedLine<'_>,
) -> Result<Effect, NoMem>
    requires { session ≡ session_number line.now.owner }
    ensures { IfOk result (λ effect.
        effect ≡ line_effect contents.now state.now (line_value line.now)) }
{
    let end = ending(line.extent, &line.shown.event);
    let status = match end {
        Some(end) => end.status,
        None => status_in(state, session),
    };
    let mut effect = Effect::new(alloc, session, status)?;
    set_nodes(alloc, contents, line.seen.changes.as_slice(), &mut effect)?;
    set_ending(
        alloc,
        state,
        line.shown.directory.as_slice(),
        end,
        &mut effect,
    )?;
    Ok(effect)
}
