//! Repairs step by step, by the calls of a `Repairer`.
ghost use Rattle.std.specs.Prelude.{◌≡◌, Some};
ghost use Rattle.retro_redo.specs.Progress.{next_number};

use retro_keep::Edit;
use retro_redo::{Quiet, Repairer, Step};
use retro_rows::{cell_text, fail, text, value_text};
use retro_tree::{NoMem, Overlay, OverlayEntry};
use std::alloc::Global;
use std::test::Fail;

/// Settles the next line, and returns what became of it.
fn settle(
    alloc: Global,
    repairer: &mut Repairer<'_, '_, '_>,
    number: u32,
) -> Result<&'static str, NoMem>
    requires { next_number repairer.old ≡ Some number }
{
    if let Some(Edit::Cancel(_)) = repairer.edits().get(number) {
        repairer.step(alloc, number, Step::Cancel)?;
        return Ok("cancelled");
    }
    if !repairer.is_met(number) {
        repairer.step(alloc, number, Step::Keep)?;
        return Ok("unmet");
    }
    if repairer.equiv(alloc, number)? {
        repairer.step(alloc, number, Step::Keep)?;
        return Ok("met");
    }
    let run = repairer.redo(alloc, number, &Quiet)?;
    repairer.step(alloc, number, Step::Take(run))?;
    Ok("redone")
}

/// Settles the lines with numbers below another.
pub fn settle_below(
    alloc: Global,
    repairer: &mut Repairer<'_, '_, '_>,
    number: u32,
) -> Result<(), NoMem> {
    for _ in 0..number {
        match repairer.next() {
            Some(next) if next < number => settle(alloc, repairer, next)?,
            _ => return Ok(()),
        };
    }
    Ok(())
}

/// Returns an entry of an overlay as a text.
fn entry_text(alloc: Global, entry: &OverlayEntry) -> Result<String, NoMem> {
    match entry {
        OverlayEntry::Value(value) => value_text(alloc, value),
        OverlayEntry::Growth(_) => text(alloc, "growth"),
    }
}

/// Returns the entries of an overlay as a text.
pub fn overlay_text(alloc: Global, overlay: &Overlay) -> Result<String, NoMem> {
    let mut out = text(alloc, "[")?;
    for (cell, entry) in overlay.iter() {
        if out.len() > 1 {
            out.push_str("; ")?;
        }
        out.push_str(&cell_text(alloc, cell)?)?;
        out.push(' ')?;
        out.push_str(&entry_text(alloc, entry)?)?;
    }
    out.push(']')?;
    Ok(out)
}

/// Appends the next line's number, the overlay before it, and what becomes of it.
fn push_step(
    alloc: Global,
    out: &mut String,
    repairer: &mut Repairer<'_, '_, '_>,
    number: u32,
) -> Result<(), NoMem>
    requires { next_number repairer.old ≡ Some number }
{
    let overlay = overlay_text(alloc, repairer.overlay())?;
    let what = settle(alloc, repairer, number)?;
    out.push_str(&format!(in alloc; "{number} {overlay} {what}, ")?)
}

/// Settles all lines. Returns each line's number, the overlay before it, and what becomes of it.
/// Ends with the overlay after the last line.
pub fn steps(alloc: Global, repairer: &mut Repairer<'_, '_, '_>) -> Result<String, Fail> {
    let mut out = String::new(alloc);
    let count = repairer.ground().recording().lines().len();
    for _ in 0..count {
        match repairer.next() {
            Some(number) => push_step(alloc, &mut out, repairer, number)?,
            None => return fail("a line is missing"),
        }
    }
    out.push_str("end ")?;
    out.push_str(&overlay_text(alloc, repairer.overlay())?)?;
    Ok(out)
}

/// Appends the number of the line at which a skip stopped, and how many lines are settled then.
fn push_stop(alloc: Global, out: &mut String, number: u32, settled: usize) -> Result<(), NoMem> {
    out.push_str(&format!(in alloc; "{number} after {settled}, ")?)
}

/// Settles all lines, those in between by skips. Returns the number of each line at which a skip
/// stopped, with how many lines were settled then.
pub fn stops(alloc: Global, repairer: &mut Repairer<'_, '_, '_>) -> Result<String, Fail> {
    let mut out = String::new(alloc);
    let count = repairer.ground().recording().lines().len();
    for _ in 0..count {
        let Some(line) = repairer.skip_unmet()? else {
            break;
        };
        push_stop(alloc, &mut out, line.number, repairer.settled_count())?;
        settle(alloc, repairer, line.number)?;
    }
    let settled = repairer.settled_count();
    out.push_str(&format!(in alloc; "end after {settled}")?)?;
    Ok(out)
}
