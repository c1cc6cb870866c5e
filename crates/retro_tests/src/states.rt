//! What states, overlays and lines that are run on states answer, as text.
//!
//! A query is one of `questions`, or `children PATH`. `@` before it asks for the value of the cell
//! that it is about.
use crate::changes::{after, change, changed};
use crate::paths::bool_text;
use crate::questions::{answer_text, ask, cell, listing_text, value_text};
use retro_rows::{fail, path, text, utf8};
use retro_shell::{play, step};
use retro_tree::{Ask, Bytes, Cell, Change, NoMem, Overlay, Path, State, View};
use std::alloc::Global;
use std::test::Fail;

/// Returns what a view answers.
fn view_answer<V: View>(alloc: Global, view: &V, ask: &Ask) -> Result<String, Fail> {
    let answer = view.answer(alloc, ask)?;
    answer_text(alloc, &answer)
}

/// Returns the names below a path of a view.
fn view_children<V: View>(alloc: Global, view: &V, path: &Path) -> Result<String, Fail> {
    let children = view.children(alloc, path)?;
    Ok(listing_text(alloc, &children)?)
}

/// Returns the value of a cell of a state.
fn state_value(alloc: Global, state: &State, cell: &Cell) -> Result<String, Fail> {
    let value = state.value(alloc, cell)?;
    value_text(alloc, &value)
}

/// Returns what a state answers to a query.
fn state_text(alloc: Global, state: &State, question: &str) -> Result<String, Fail> {
    let Some((kind, rest)) = question.split_once(' ') else {
        return fail("no question");
    };
    if kind == "children" {
        return view_children(alloc, state, &path(alloc, rest)?);
    }
    match kind.strip_prefix('@') {
        Some(kind) => state_value(alloc, state, &cell(alloc, kind, rest)?),
        None => view_answer(alloc, state, &ask(alloc, kind, rest)?),
    }
}

/// Returns what an overlay over a state answers.
fn overlay_answer(
    alloc: Global,
    overlay: &Overlay,
    state: &State,
    ask: &Ask,
) -> Result<String, Fail> {
    let answer = overlay.answer(alloc, state, ask)?;
    answer_text(alloc, &answer)
}

/// Returns the names below a path in an overlay over a state.
fn overlay_children(
    alloc: Global,
    overlay: &Overlay,
    state: &State,
    path: &Path,
) -> Result<String, Fail> {
    let children = overlay.children(alloc, state, path)?;
    Ok(listing_text(alloc, &children)?)
}

/// Returns the value of a cell in an overlay over a state.
fn overlay_value(
    alloc: Global,
    overlay: &Overlay,
    state: &State,
    cell: &Cell,
) -> Result<String, Fail> {
    let value = overlay.value(alloc, state, cell)?;
    value_text(alloc, &value)
}

/// Returns what an overlay over a state answers to a query.
fn overlay_text(
    alloc: Global,
    overlay: &Overlay,
    state: &State,
    question: &str,
) -> Result<String, Fail> {
    let Some((kind, rest)) = question.split_once(' ') else {
        return fail("no question");
    };
    if kind == "children" {
        return overlay_children(alloc, overlay, state, &path(alloc, rest)?);
    }
    match kind.strip_prefix('@') {
        Some(kind) => overlay_value(alloc, overlay, state, &cell(alloc, kind, rest)?),
        None => overlay_answer(alloc, overlay, state, &ask(alloc, kind, rest)?),
    }
}

/// Returns an overlay of changes.
fn overlaid(alloc: Global, given: &str) -> Result<Overlay, Fail> {
    let mut overlay = Overlay::new(alloc);
    for each in given.split("; ") {
        if !each.is_empty() {
            overlay.apply(change(alloc, each)?)?;
        }
    }
    Ok(overlay)
}

/// Returns a state to which an overlay of changes is committed.
fn committed(alloc: Global, mut state: State, given: &str) -> Result<State, Fail> {
    overlaid(alloc, given)?.commit(alloc, &mut state)?;
    Ok(state)
}

/// Returns what a copy of an overlay of changes answers over a state.
fn combined_answer(alloc: Global, base: &str, given: &str, question: &str) -> Result<String, Fail> {
    let state = changed(alloc, base)?;
    let overlay = overlaid(alloc, given)?;
    overlay_text(alloc, &overlay.copy(alloc)?, &state, question)
}

/// Returns what a state answers after an overlay of changes is committed to it.
fn committed_answer(
    alloc: Global,
    base: &str,
    given: &str,
    question: &str,
) -> Result<String, Fail> {
    let state = committed(alloc, changed(alloc, base)?, given)?;
    state_text(alloc, &state, question)
}

/// Returns what a state answers after changes.
fn direct_answer(alloc: Global, base: &str, given: &str, question: &str) -> Result<String, Fail> {
    let state = after(alloc, changed(alloc, base)?, given)?;
    state_text(alloc, &state, question)
}

/// Returns one answer, or all of them if they differ.
fn agreed(alloc: Global, direct: &str, combined: &str, committed: &str) -> Result<String, NoMem> {
    if direct == combined && direct == committed {
        return text(alloc, direct);
    }
    format!(in alloc; "{direct} / {combined} / {committed}")
}

/// Returns what a state answers to a query after changes: all three answers, where they differ.
///
/// Changes before ` >> ` make the state. Those after it are applied to the state, put into an
/// overlay over it, and committed to it from that overlay.
pub fn state_answer(alloc: Global, given: &str, question: &str) -> Result<String, Fail> {
    let (base, given) = given.split_once(" >> ").unwrap_or(("", given));
    let direct = direct_answer(alloc, base, given, question)?;
    let combined = combined_answer(alloc, base, given, question)?;
    let committed = committed_answer(alloc, base, given, question)?;
    Ok(agreed(alloc, &direct, &combined, &committed)?)
}

/// Returns whether a change is lawful in a state.
fn allowed_text(alloc: Global, state: &State, change: &Change) -> Result<String, NoMem> {
    let allowed = state.allows(alloc, change)?;
    bool_text(alloc, allowed)
}

/// Returns whether a change is lawful in the root alone after others.
pub fn allows(alloc: Global, before: &str, given: &str) -> Result<String, Fail> {
    let state = changed(alloc, before)?;
    let change = change(alloc, given)?;
    Ok(allowed_text(alloc, &state, &change)?)
}

/// Returns whether a state is within the limits, and whether it is lawful.
fn lawful_text(alloc: Global, state: &mut State) -> Result<String, Fail> {
    let lawful = state.is_lawful(alloc)?;
    if lawful != state.validate(alloc)? {
        return fail("two answers");
    }
    let within = state.is_within_limits();
    Ok(format!(in alloc; "{within} {lawful}")?)
}

/// Returns whether the root alone is within the limits after changes, and whether it is lawful.
pub fn lawfulness(alloc: Global, given: &str) -> Result<String, Fail> {
    lawful_text(alloc, &mut changed(alloc, given)?)
}

/// Returns what stepping a state by a line of session 1 prints.
fn stepped(alloc: Global, mut state: State, line: &str) -> Result<Bytes, Fail> {
    if !state.has_session(1) || !state.is_lawful(alloc)? {
        return fail("a lawless state");
    }
    Ok(step(alloc, &mut state, 1, line)?)
}

/// Returns what playing a line of session 1 over a state prints.
fn played_over(alloc: Global, state: &State, line: &str) -> Result<Bytes, Fail> {
    if !state.has_session(1) || !state.is_lawful(alloc)? {
        return fail("a lawless state");
    }
    Ok(play(alloc, state, 1, line)?.1)
}

/// Returns what a line of session 1 prints on the root alone after changes.
pub fn played(alloc: Global, given: &str, line: &str) -> Result<String, Fail> {
    let played = played_over(alloc, &changed(alloc, given)?, line)?;
    let stepped = stepped(alloc, changed(alloc, given)?, line)?;
    if played != stepped {
        return fail("two outputs");
    }
    Ok(text(alloc, utf8(played.as_slice())?)?)
}
