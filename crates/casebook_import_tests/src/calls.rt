//! The calls of rows.
use crate::history::rows_in;
use casebook_explain::tell_lines;
use casebook_import::{Imported, import};
use casebook_spool::{Contents, read_lines, read_listing};
use casebook_typed::typed_lines;
use retro_rows::{cell, fail, value_text};
use retro_tree::State;
use std::alloc::Global;
use std::test::Fail;

/// Returns what a first look and a history say.
fn imported(alloc: Global, first: &str, history: &str) -> Result<Imported, Fail> {
    let mut kept = Contents::new(alloc);
    let rows = rows_in(alloc, &mut kept, first)?;
    let count = rows.lines().count();
    let listing = format!(in alloc; "listing\t0\t{count}\n{}", rows.as_str())?;
    let Some(listing) = read_listing(alloc, listing.as_bytes())? else {
        return fail("no listing");
    };
    let rows = rows_in(alloc, &mut kept, history)?;
    let lines = read_lines(alloc, rows.as_bytes())?;
    let typed = typed_lines(alloc, &listing, &lines)?;
    Ok(import(alloc, &kept, &listing, &typed)?)
}

/// Returns the value of a cell in a state.
fn value_in(alloc: Global, state: &State, of: &str) -> Result<String, Fail> {
    let value = state.value(alloc, &cell(alloc, of)?)?;
    Ok(value_text(alloc, &value)?)
}

/// Returns the value of a cell before all lines.
pub fn first(alloc: Global, first: &str, history: &str, of: &str) -> Result<String, Fail> {
    let imported = imported(alloc, first, history)?;
    value_in(alloc, &imported.first, of)
}

/// Returns the value of a cell after all lines, as they were seen.
pub fn after(alloc: Global, first: &str, history: &str, of: &str) -> Result<String, Fail> {
    let Imported { first, lines } = imported(alloc, first, history)?;
    let mut state = first;
    for line in &lines {
        line.effect.make(alloc, &mut state)?;
    }
    value_in(alloc, &state, of)
}

/// Returns of each line whether its text is the typed one in the recording of the lines.
pub fn told(alloc: Global, first: &str, history: &str) -> Result<String, Fail> {
    let Imported { first, lines } = imported(alloc, first, history)?;
    let Ok(told) = tell_lines(alloc, &first, lines) else {
        return fail("a line can't be told");
    };
    let mut out = String::new(alloc);
    for line in told.lines() {
        if !out.is_empty() {
            out.push(' ')?;
        }
        out.push_str(if line.is_modelled {
            "modelled"
        } else {
            "observed"
        })?;
    }
    Ok(out)
}
