//! The state before all lines.
ghost use Rattle.std.specs.Prelude.{◌≡◌, ◌<◌, ◌^◌, ◌∷◌, [], IfOk, OnOk, is_some, length, map};
ghost use Rattle.std.specs.Prelude.{option_map};
ghost use Rattle.std.specs.FinMap as finmap;
ghost use Rattle.std.specs.List.{list_any};
ghost use Rattle.retro_tree.specs.State.{put_session};
ghost use Rattle.casebook_needs.specs.Named.{named_path};
ghost use Rattle.casebook_typed.specs.Values.{line_value, session_value};
ghost use Rattle.casebook_import.specs.First as first;

use crate::NoMem;
use crate::directories::{elsewhere, first_directory};
use crate::effects::shell_bytes;
use crate::nodes::node_of;
use crate::said_vars::SaidVars;
use crate::variables::vars_of;
use casebook_explain::shell_path;
use casebook_needs::named_path;
use casebook_record::Record;
use casebook_spool::{Contents, Note, after_notes};
use casebook_typed::{Session, TypedLine};
use casebook_watch::Sights;
use retro_tree::{Bytes, Kind, Node, Path, State};
use std::alloc::Global;
use std::collections::BTreeMap;

/// Makes a path a directory, unless something is there.
fn make_directory(state: &mut State, path: &Path) -> Result<(), NoMem>
    ensures { OnOk result (state.new ≡ first.with_directory path.now state.old) }
{
    if state.kind(path) == Kind::Missing {
        state.place(path.copy()?, Node::Dir)?;
    }
    Ok(())
}

/// Makes each path a directory at which nothing is, one after the other.
fn make_directories(state: &mut State, paths: &[Path]) -> Result<(), NoMem>
    ensures { OnOk result (state.new ≡ first.with_directories paths.now state.old) }
{
    for path in paths {
        make_directory(state, path)?;
    }
    Ok(())
}

/// Places a node, below directories.
fn place(alloc: Global, state: &mut State, path: &Path, node: Node) -> Result<(), NoMem>
    ensures { OnOk result (state.new ≡ first.with_node path.now node state.old) }
{
    let above = path.parent(alloc)?.prefixes(alloc)?;
    make_directories(state, above.as_slice())?;
    state.place(path.copy()?, node)
}

/// Places what a note of the first look says.
fn place_note(
    alloc: Global,
    contents: &Contents,
    sights: &Sights,
    note: &Note,
    state: &mut State,
) -> Result<(), NoMem>
    ensures { OnOk result (state.new
        ≡ first.with_note contents.now sights.now note.now state.old) }
{
    match note {
        Note::Sight(change) => {
            let node = node_of(alloc, contents, change.sight.as_ref(), None)?;
            place(alloc, state, &change.path, node)
        }
        Note::Holds(holds) => {
            let sight = sights.get(&holds.path);
            let node = node_of(alloc, contents, sight, Some(&holds.content))?;
            place(alloc, state, &holds.path, node)
        }
        Note::Looked(_) => Ok(()),
    }
}

/// Places what the notes of the first look say.
fn place_notes(
    alloc: Global,
    contents: &Contents,
    sights: &Sights,
    notes: &[Note],
    state: &mut State,
) -> Result<(), NoMem>
    ensures { OnOk result (state.new
        ≡ first.with_notes contents.now sights.now notes.now state.old) }
{
    for note in notes {
        place_note(alloc, contents, sights, note, state)?;
    }
    Ok(())
}

/// Returns whether one of some paths has a sight.
fn has_sight(sights: &Sights, paths: &[Path]) -> bool
    ensures { result ≡ list_any (λ q. is_some (finmap.get sights.now q)) paths.now }
{
    for path in paths {
        if sights.get(path).is_some() {
            return true;
        }
    }
    false
}

/// Returns whether the root or one of the prefixes of a path has a sight.
fn is_watched(alloc: Global, sights: &Sights, prefixes: &[Path]) -> bool
    ensures { result ≡ list_any (λ q. is_some (finmap.get sights.now q)) ([] ∷ prefixes.now) }
{
    sights.get(&Path::root(alloc)).is_some() || has_sight(sights, prefixes)
}

/// Makes the directory with a name, and those above it, unless it is watched.
fn make_place(alloc: Global, sights: &Sights, name: &[u8], state: &mut State) -> Result<(), NoMem>
    ensures { OnOk result (state.new
        ≡ first.with_unwatched sights.now (named_path [] name.now) state.old) }
{
    let Some(path) = named_path(alloc, &Path::root(alloc), name)? else {
        return Ok(());
    };
    let prefixes = path.prefixes(alloc)?;
    if is_watched(alloc, sights, prefixes.as_slice()) {
        return Ok(());
    }
    make_directories(state, prefixes.as_slice())?;
    Ok(())
}

/// Returns the name of the directory that a record says, or nothing if there is no record.
fn directory_by<'a>(found: Option<&'a Record>) -> &'a [u8]
    ensures { result.now ≡ first.directory_by (option_map (λ r. r.now) found.entry) }
{
    match found {
        Some(found) => found.directory.as_slice(),
        None => &[],
    }
}

/// Makes the directories that aren't watched in which sessions begin.
fn make_first_places(
    alloc: Global,
    sights: &Sights,
    sessions: &[Session<'_>],
    state: &mut State,
) -> Result<(), NoMem>
    ensures { OnOk result (state.new ≡ first.with_places sights.now
        (map (λ session. first.directory_by session.first) (map session_value sessions.now))
        state.old) }
{
    for session in sessions {
        make_place(alloc, sights, directory_by(session.first), state)?;
    }
    Ok(())
}

/// Makes the directories that aren't watched in which sessions are after lines.
fn make_line_places(
    alloc: Global,
    sights: &Sights,
    lines: &[TypedLine<'_>],
    state: &mut State,
) -> Result<(), NoMem>
    ensures { OnOk result (state.new ≡ first.with_places sights.now
        (map (λ line. line.shown.directory) (map line_value lines.now)) state.old) }
{
    for line in lines {
        make_place(alloc, sights, line.shown.directory.as_slice(), state)?;
    }
    Ok(())
}

/// Returns the variables that a text says, or none.
fn vars_said(alloc: Global, text: Option<&Bytes>) -> Result<SaidVars, NoMem>
    ensures { IfOk result (λ vars. vars
        ≡ first.vars_or_none (first.said_vars (option_map (λ text. text.now) text.entry))) }
{
    let found = match text {
        Some(text) => vars_of(alloc, text.as_slice())?,
        None => None,
    };
    match found {
        Some(vars) => Ok(vars),
        None => Ok(SaidVars::new(alloc)),
    }
}

/// Places the functions, aliases and options of a session, if they are known.
fn place_shell(
    alloc: Global,
    number: u32,
    text: Option<&Bytes>,
    state: &mut State,
) -> Result<(), NoMem>
    ensures { OnOk result (state.new
        ≡ first.with_shell number (option_map (λ text. text.now) text.entry) state.old) }
{
    match text {
        Some(text) => {
            let bytes = shell_bytes(alloc, text)?;
            state.place(shell_path(alloc, number)?, Node::File(bytes))
        }
        None => Ok(()),
    }
}

/// Adds a session as it begins.
fn add_session(
    alloc: Global,
    number: u32,
    session: &Session<'_>,
    state: &mut State,
) -> Result<(), NoMem>
    ensures { OnOk result (state.new ≡ put_session number (first.first_session
        (session_value session.now)) (first.with_shell number
        (first.shell_by (session_value session.now).start) state.old)) }
{
    let (variables, shell) = match session.start {
        Some(start) => (start.variables.as_ref(), start.shell.as_ref()),
        None => (None, None),
    };
    place_shell(alloc, number, shell, state)?;
    let cwd = first_directory(alloc, directory_by(session.first))?;
    let vars = vars_said(alloc, variables)?;
    state.add_session(number, cwd, 0, vars.into_values())
}

/// Adds sessions as they begin, numbered from 1.
fn add_sessions(alloc: Global, sessions: &[Session<'_>], state: &mut State) -> Result<(), NoMem>
    requires { length sessions.now < 2 ^ 32 }
    ensures { OnOk result (state.new
        ≡ first.with_sessions 1 (map session_value sessions.now) state.old) }
{
    let mut number = 0_u32;
    for session in sessions {
        number += 1;
        add_session(alloc, number, session, state)?;
    }
    Ok(())
}

/// Makes what `/.casebook` has before all lines.
fn make_ours(alloc: Global, state: &mut State) -> Result<(), NoMem>
    ensures { OnOk result (state.new ≡ first.with_ours state.old) }
{
    let elsewhere = elsewhere(alloc)?.prefixes(alloc)?;
    let shells = shell_path(alloc, 0)?.parent(alloc)?.prefixes(alloc)?;
    make_directories(state, elsewhere.as_slice())?;
    make_directories(state, shells.as_slice())?;
    Ok(())
}

/// Returns the state before all lines, by the notes of the first look.
pub(crate) fn first_state(
    alloc: Global,
    contents: &Contents,
    notes: &[Note],
    sessions: &[Session<'_>],
    lines: &[TypedLine<'_>],
) -> Result<State, NoMem>
    requires { length sessions.now < 2 ^ 32 }
    ensures { IfOk result (λ state. state ≡ first.first_state contents.now notes.now
        (map session_value sessions.now) (map line_value lines.now)) }
{
    let sights = after_notes(Sights::new(alloc), notes)?;
    let mut state = State::empty(alloc)?;
    place_notes(alloc, contents, &sights, notes, &mut state)?;
    make_ours(alloc, &mut state)?;
    make_first_places(alloc, &sights, sessions, &mut state)?;
    make_line_places(alloc, &sights, lines, &mut state)?;
    state.add_session(0, Path::root(alloc), 0, BTreeMap::new(alloc))?;
    add_sessions(alloc, sessions, &mut state)?;
    Ok(state)
}
