//! Lines of session 1, with what they leave, as text.
//!
//! What exists before a line is written as words, as in `states`. A result is the session's status
//! after the line and the output, and then the notes as JSON.
use crate::json::push_notes;
use crate::shown::Shown;
use crate::states::{same_state, state_of};
use retro_rows::{fail, text, utf8};
use retro_shell::{Run, apply_notes, holds, play, run_line, run_parsed, step};
use retro_syntax::Parsed;
use retro_tree::{Answer, Ask, NoMem, Note, State, View};
use std::alloc::Global;
use std::test::Fail;

/// Returns whether two runs have the same notes and output.
fn same_runs(one: &Run, other: &Run) -> bool {
    one.notes().is_same(other.notes()) && one.output() == other.output()
}

/// Returns whether a run is of this line of session 1.
fn is_of(run: &Run, given: &str) -> bool {
    run.sid() == 1 && run.text() == given
}

/// Runs the parsed line over a view.
fn run_tree<V: View>(alloc: Global, view: &V, given: &str) -> Result<Run, NoMem> {
    let parsed = Parsed::of(alloc, text(alloc, given)?)?;
    run_parsed(alloc, view, 1, &parsed)
}

/// Returns whether the parsed line of a run leaves the same over a view.
fn is_run_parsed<V: View>(alloc: Global, view: &V, run: &Run) -> Result<bool, NoMem> {
    let other = run_tree(alloc, view, run.text())?;
    Ok(is_of(&other, run.text()) && same_runs(run, &other))
}

/// Returns whether the line of a run leaves the same over a view.
fn is_run_again<V: View>(alloc: Global, view: &V, run: &Run) -> Result<bool, NoMem> {
    let other = run_line(alloc, view, 1, run.text())?;
    Ok(is_of(&other, run.text()) && same_runs(run, &other))
}

/// Returns whether the notes of a run hold over a view, and its line leaves the same there, also
/// parsed.
fn is_run_over<V: View>(alloc: Global, view: &V, run: &Run) -> Result<bool, NoMem> {
    let holds = holds(alloc, run.notes(), view)?;
    Ok(holds && is_run_again(alloc, view, run)? && is_run_parsed(alloc, view, run)?)
}

/// Returns whether the line of a run leaves the same over the state that words say.
fn is_run_over_state(alloc: Global, words: &str, run: &Run) -> Result<bool, Fail> {
    let state = state_of(alloc, words)?;
    Ok(is_run_over(alloc, &state, run)?)
}

/// Returns whether the line of a run leaves the same over an overlay that shows this state.
fn is_run_over_overlay(alloc: Global, words: &str, run: &Run) -> Result<bool, Fail> {
    let root = State::empty(alloc)?;
    let shown = Shown::of(alloc, &root, words)?;
    Ok(is_run_over(alloc, &shown, run)?)
}

/// Returns the state after a run's notes.
fn state_after(alloc: Global, words: &str, run: &Run) -> Result<State, Fail> {
    let mut state = state_of(alloc, words)?;
    apply_notes(alloc, run.notes(), &mut state)?;
    Ok(state)
}

/// Returns whether playing the line over a state gives a run's output and the state after its
/// notes.
fn is_played(alloc: Global, state: &State, after: &State, run: &Run) -> Result<bool, NoMem> {
    if !state.has_session(1) || !state.is_lawful(alloc)? {
        return Ok(false);
    }
    let (played, output) = play(alloc, state, 1, run.text())?;
    Ok(output == *run.output() && same_state(after, &played))
}

/// Returns whether stepping a state by the line leaves a run's output and the state after its
/// notes.
fn is_stepped(alloc: Global, state: &mut State, after: &State, run: &Run) -> Result<bool, NoMem> {
    if !state.has_session(1) || !state.is_lawful(alloc)? {
        return Ok(false);
    }
    let output = step(alloc, state, 1, run.text())?;
    Ok(output == *run.output() && same_state(after, &*state))
}

/// Returns whether playing and stepping the state that words say leave a run's output, and the
/// state after its notes.
fn is_applied(alloc: Global, words: &str, after: &State, run: &Run) -> Result<bool, Fail> {
    let mut state = state_of(alloc, words)?;
    let played = is_played(alloc, &state, after, run)?;
    Ok(played && is_stepped(alloc, &mut state, after, run)?)
}

/// Returns the status of session 1.
fn status_of(alloc: Global, state: &State) -> Result<u8, Fail> {
    match state.answer(alloc, &Ask::StatusOf(1))? {
        Answer::Status(status) => Ok(status),
        _ => fail("no status"),
    }
}

/// Returns a status, an output and notes.
fn result_text(alloc: Global, status: u8, output: &str, notes: &[Note]) -> Result<String, NoMem> {
    let mut out = format!(in alloc; "{status} [{output}]")?;
    push_notes(alloc, &mut out, notes)?;
    Ok(out)
}

/// Returns the status of a state after a run, the run's output and its notes.
fn run_text(alloc: Global, after: &State, run: &Run) -> Result<String, Fail> {
    let status = status_of(alloc, after)?;
    let output = utf8(run.output().as_slice())?;
    Ok(result_text(alloc, status, output, run.notes().as_slice())?)
}

/// Returns whether each other way to run the line of a run leaves the same.
fn is_run_alike(alloc: Global, words: &str, after: &State, run: &Run) -> Result<bool, Fail> {
    Ok(
        is_run_over_state(alloc, words, run)?
            && is_run_over_overlay(alloc, words, run)?
            && is_applied(alloc, words, after, run)?,
    )
}

/// Returns what a run leaves, or that another way to run its line leaves something else.
fn told(alloc: Global, words: &str, run: &Run) -> Result<String, Fail> {
    let after = state_after(alloc, words, run)?;
    if is_run_alike(alloc, words, &after, run)? {
        run_text(alloc, &after, run)
    } else {
        Ok(text(alloc, "something else, if run in another way")?)
    }
}

/// Runs a line over the state that words say.
fn run_over_words(alloc: Global, words: &str, given: &str) -> Result<Run, Fail> {
    let state = state_of(alloc, words)?;
    Ok(run_line(alloc, &state, 1, given)?)
}

/// Returns what a line leaves, or that another way to run it leaves something else.
pub fn line(alloc: Global, words: &str, given: &str) -> Result<String, Fail> {
    let run = run_over_words(alloc, words, given)?;
    if is_of(&run, given) {
        told(alloc, words, &run)
    } else {
        fail("a run of another line")
    }
}
