//! Explanations of effects, as text.
use crate::words::{effect_of, spaced, state_of};
use casebook_stand_in::{Effect, ExplainError, Explained, explain, shelf_of};
use retro_rows::{cell_text, fail, path, utf8};
use retro_tree::{Bytes, NoMem, Node, State};
use std::alloc::Global;
use std::test::Fail;

/// The line whose shelf is used.
const LINE: u32 = 7;

/// Puts files on the shelf of the line.
fn fill_shelf(alloc: Global, state: &mut State, shelf: Vec<Bytes>) -> Result<(), Fail> {
    state.place(path(alloc, "/.casebook")?, Node::Dir)?;
    state.place(path(alloc, "/.casebook/7")?, Node::Dir)?;
    let mut number = 0_u32;
    for bytes in shelf {
        number = number.saturating_add(1);
        let at = format!(in alloc; "/.casebook/{LINE}/{number}")?;
        state.place(path(alloc, at.as_str())?, Node::File(bytes))?;
    }
    Ok(())
}

/// Returns an explanation as text: whether the line is modelled, and its texts.
fn explained_text(alloc: Global, explained: &Explained) -> Result<String, NoMem> {
    let mut out = String::from_str(
        alloc,
        if explained.is_modelled {
            "modelled: "
        } else {
            "stand-in: "
        },
    )?;
    let mut is_first = true;
    for run in &explained.runs {
        if !is_first {
            out.push_str(" | ")?;
        }
        out.push_str(run.text())?;
        is_first = false;
    }
    Ok(out)
}

/// Returns what explains an effect, as text, or the cell that can't be explained.
fn outcome(
    alloc: Global,
    state: &mut State,
    typed: Option<&str>,
    effect: Effect,
) -> Result<String, Fail> {
    if !state.has_session(1) || !state.is_lawful(alloc)? || effect.sid() != 1 {
        return fail("no lawful state with session 1");
    }
    match explain(alloc, state, LINE, typed, effect) {
        Ok(explained) => Ok(explained_text(alloc, &explained)?),
        Err(ExplainError::NoMem) => Err(NoMem)?,
        Err(ExplainError::Unexplained(cell)) => {
            let name = cell_text(alloc, &cell)?;
            Ok(format!(in alloc; "unexplained: {}", name.as_str())?)
        }
        Err(ExplainError::Unwritten(cell)) => {
            let name = cell_text(alloc, &cell)?;
            Ok(format!(in alloc; "unwritten: {}", name.as_str())?)
        }
    }
}

/// Returns what explains the effect that words say, in the state that words say.
pub fn explained(alloc: Global, state: &str, typed: &str, effect: &str) -> Result<String, Fail> {
    let mut state = state_of(alloc, state)?;
    let effect = effect_of(alloc, effect)?;
    let shelf = shelf_of(alloc, &state, &effect)?;
    fill_shelf(alloc, &mut state, shelf)?;
    if typed == "none" {
        return outcome(alloc, &mut state, None, effect);
    }
    let typed = spaced(alloc, typed)?;
    outcome(alloc, &mut state, Some(typed.as_str()), effect)
}

/// Returns what the files hold that are on the shelf of an effect.
pub fn shelf_text(alloc: Global, state: &str, effect: &str) -> Result<String, Fail> {
    let shelf = shelf_of(alloc, &state_of(alloc, state)?, &effect_of(alloc, effect)?)?;
    let mut out = String::new(alloc);
    for bytes in &shelf {
        out.push('[')?;
        out.push_str(utf8(bytes.as_slice())?)?;
        out.push(']')?;
    }
    Ok(out)
}

/// Returns the value that a cell has in a state once an effect is made in it.
pub fn made(alloc: Global, state: &str, effect: &str, cell: &str) -> Result<String, Fail> {
    let mut state = state_of(alloc, state)?;
    effect_of(alloc, effect)?.make(alloc, &mut state)?;
    let value = state.value(alloc, &retro_rows::cell(alloc, cell)?)?;
    Ok(retro_rows::value_text(alloc, &value)?)
}
