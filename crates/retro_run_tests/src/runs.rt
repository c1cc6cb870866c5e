//! Runs of utilities, with the notes that they leave, as text.
//!
//! What exists before a run is written as words, as in `states`. A place is the session's number,
//! with an `s` in a subshell, followed by what standard input is: nothing, ` =TEXT`, or ` ` and
//! the path of a file. A result is the status, the output and the diagnostics, and then the notes
//! as JSON.
use crate::json::push_notes;
use crate::shown::Shown;
use crate::states::{bytes, state_of};
use retro_rows::{fail, path, text, utf8};
use retro_tree::{NoMem, State, View};
use retro_utils::{Done, Input, Local, Place, holds, utility};
use std::alloc::Global;
use std::test::Fail;

/// Returns the place that a text says.
fn place(given: &str) -> Result<Place, Fail> {
    let sub = given.ends_with("s");
    let sid = given.strip_suffix("s").unwrap_or(given).parse()?;
    Ok(Place { sid, sub })
}

/// Returns the standard input that a text says.
fn input(alloc: Global, given: &str) -> Result<Input, Fail> {
    match given.strip_prefix("=") {
        None => Ok(Input::File(path(alloc, given)?)),
        Some("") => Ok(Input::Empty),
        Some(content) => Ok(Input::Bytes(bytes(alloc, content)?)),
    }
}

/// Returns a result as text.
fn done_text(alloc: Global, done: &Done) -> Result<String, Fail> {
    let out = utf8(done.out.as_slice())?;
    let err = utf8(done.err.as_slice())?;
    Ok(format!(in alloc; "{} [{out}] [{err}]", done.status)?)
}

/// Returns a result as text, or that there is no such utility.
fn called_text(alloc: Global, done: &Option<Done>) -> Result<String, Fail> {
    match done {
        Some(done) => done_text(alloc, done),
        None => Ok(text(alloc, "none")?),
    }
}

/// Returns what a utility leaves, as text.
fn call<V: View>(
    alloc: Global,
    local: &mut Local<V>,
    given: &str,
    fields: &[String],
) -> Result<String, Fail> {
    let [name, fields @ ..] = fields else {
        return fail("no utility");
    };
    let (at, from) = given.split_once(" ").unwrap_or((given, "="));
    let place = place(at)?;
    let done = utility(alloc, name, fields, input(alloc, from)?, local, place)?;
    called_text(alloc, &done)
}

/// Appends the notes that a `Local` leaves. Returns whether they hold over its view.
fn push_left<V: View>(
    alloc: Global,
    out: &mut String,
    view: &V,
    local: Local<V>,
) -> Result<bool, NoMem> {
    let notes = local.into_notes(alloc)?;
    push_notes(alloc, out, notes.as_slice())?;
    holds(alloc, &notes, view)
}

/// Returns what a utility leaves over a view, with its notes.
fn over<V: View>(alloc: Global, view: &V, given: &str, fields: &[String]) -> Result<String, Fail> {
    let mut local = Local::new(alloc, view);
    let mut out = call(alloc, &mut local, given, fields)?;
    if push_left(alloc, &mut out, view, local)? {
        Ok(out)
    } else {
        fail("notes that don't hold")
    }
}

/// Returns what a utility leaves over the state that words say.
fn over_state(alloc: Global, words: &str, given: &str, fields: &[String]) -> Result<String, Fail> {
    let state = state_of(alloc, words)?;
    over(alloc, &state, given, fields)
}

/// Returns what a utility leaves over an overlay that shows this state.
fn over_overlay(
    alloc: Global,
    words: &str,
    given: &str,
    fields: &[String],
) -> Result<String, Fail> {
    let root = State::empty(alloc)?;
    let shown = Shown::of(alloc, &root, words)?;
    over(alloc, &shown, given, fields)
}

/// Returns what a utility leaves over a state, and over an overlay that shows the same state: both
/// results, where they differ.
pub fn run(alloc: Global, words: &str, given: &str, fields: &[String]) -> Result<String, Fail> {
    let one = over_state(alloc, words, given, fields)?;
    let other = over_overlay(alloc, words, given, fields)?;
    if one == other {
        return Ok(one);
    }
    Ok(format!(in alloc; "{one} / {other}")?)
}
