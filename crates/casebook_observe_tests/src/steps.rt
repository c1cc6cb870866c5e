//! Steps of a recorder, and the calls of rows that do them with a spool in memory.
//!
//! A step is `start`, `list`, or the fields of a record, which `|` separates, and then maybe ` <- `
//! and what the watched folders hold then. The word `cut` before a record leaves out its last NUL.
//! The word `tail` and a text append this to the file `lines`, as a call does that was interrupted,
//! `listing` and a text put this in the place of the file `listing`, and the step `unlisted`
//! removes that file.
use crate::memory::MemorySpool;
use crate::worlds::MemoryWatched;
use casebook_observe::{ObserveError, list_again, observe, start};
use casebook_spool::read_lines;
use retro_rows::{fail, utf8};
use std::alloc::Global;
use std::test::Fail;

/// What the watched folders hold for damaged spools, and the record that is sent.
const FOLDER: &str = "/d dir 1 mode=755";

const EXIT: &str = "exit|s|5|0|/|7|0";

/// Returns what is done, and what the watched folders hold then.
pub fn step_of(step: &str) -> (&str, &str) {
    match step.split_once(" <- ") {
        Some(parts) => parts,
        None => (step, "none"),
    }
}

/// Returns the bytes of a record.
fn record_of(alloc: Global, fields: &str) -> Result<Vec<u8>, Fail> {
    let (fields, is_cut) = match fields.strip_prefix("cut ") {
        Some(fields) => (fields, true),
        None => (fields, false),
    };
    let mut bytes = Vec::new(alloc);
    for field in fields.split('|') {
        bytes.extend_from_slice(field.as_bytes())?;
        bytes.push(0)?;
    }
    if is_cut {
        bytes.pop();
    }
    Ok(bytes)
}

/// Does a step, and returns what the call returned.
pub fn act(
    alloc: Global,
    spool: &mut MemorySpool,
    watched: &mut MemoryWatched,
    what: &str,
) -> Result<Result<(), ObserveError>, Fail> {
    match what {
        "start" => Ok(start(alloc, spool, watched)),
        "list" => Ok(list_again(alloc, spool)),
        record => {
            let record = record_of(alloc, record)?;
            Ok(observe(alloc, spool, watched, record.as_slice()))
        }
    }
}

/// Does what no call does, if a step is that, and returns whether it was.
fn is_prepared(spool: &mut MemorySpool, step: &str) -> Result<bool, Fail> {
    if step == "unlisted" {
        spool.listing.truncate(0);
        return Ok(true);
    }
    if let Some(text) = step.strip_prefix("listing ") {
        spool.listing.truncate(0);
        spool.listing.extend_from_slice(text.as_bytes())?;
        return Ok(true);
    }
    match step.strip_prefix("tail ") {
        Some(text) => {
            spool.lines.extend_from_slice(text.as_bytes())?;
            Ok(true)
        }
        None => Ok(false),
    }
}

/// Does a step that has to be done well.
pub fn go(alloc: Global, spool: &mut MemorySpool, step: &str) -> Result<(), Fail> {
    if is_prepared(spool, step)? {
        return Ok(());
    }
    let (what, world) = step_of(step);
    let mut watched = MemoryWatched::of(alloc, world)?;
    act(alloc, spool, &mut watched, what)??;
    Ok(())
}

/// Returns how many bytes of the file `lines` are whole.
pub fn whole_of(alloc: Global, spool: &MemorySpool) -> Result<usize, Fail> {
    match read_lines(alloc, spool.lines.as_slice()) {
        Ok(lines) => Ok(lines.whole()),
        Err(_) => fail("damaged lines"),
    }
}

/// Returns what the file `lines` has after what was whole before. Fails if that isn't there.
pub fn new_lines<'s>(
    alloc: Global,
    before: &MemorySpool,
    after: &'s MemorySpool,
) -> Result<&'s [u8], Fail> {
    let whole = whole_of(alloc, before)?;
    let Some((old, _)) = before.lines.as_slice().split_at_checked(whole) else {
        return fail("no whole lines");
    };
    match after.lines.as_slice().split_at_checked(whole) {
        Some((same, new)) if same == old => Ok(new),
        _ => fail("other lines"),
    }
}

/// Returns the text that a step wrote.
fn written<'s>(
    alloc: Global,
    before: &MemorySpool,
    after: &'s MemorySpool,
    what: &str,
) -> Result<&'s str, Fail> {
    match what {
        "start" => utf8(after.first.as_slice()),
        "list" => utf8(after.listing.as_slice()),
        _ => utf8(new_lines(alloc, before, after)?),
    }
}

/// Does a step, and appends what it wrote or the error that it returned.
fn tell(alloc: Global, out: &mut String, spool: &mut MemorySpool, step: &str) -> Result<(), Fail> {
    let before = spool.copy(alloc)?;
    let (what, world) = step_of(step);
    let mut watched = MemoryWatched::of(alloc, world)?;
    match act(alloc, spool, &mut watched, what)? {
        Ok(()) => out.push_str(written(alloc, &before, spool, what)?)?,
        Err(error) => {
            out.push_str(format!(in alloc; "{error:?}\n")?.as_str())?;
            if !spool.is_same(&before) {
                return fail("an error changed the spool");
            }
        }
    }
    Ok(())
}

/// Appends the contents that are kept: digests and bytes.
fn push_kept(alloc: Global, out: &mut String, spool: &MemorySpool) -> Result<(), Fail> {
    for kept in &spool.kept {
        let digits = hex::encode(alloc, kept.digest.bytes)?;
        let bytes = utf8(kept.bytes.as_slice())?;
        out.push_str(format!(in alloc; "kept {} [{bytes}]\n", digits.as_str())?.as_str())?;
    }
    Ok(())
}

/// Fails unless the last look is the same by a listing.
fn agrees(alloc: Global, spool: &MemorySpool, listing: &[u8], look: &[u8]) -> Result<(), Fail> {
    let mut other = spool.copy(alloc)?;
    other.listing.truncate(0);
    other.listing.extend_from_slice(listing)?;
    go(alloc, &mut other, "list")?;
    if other.listing.as_slice() != look {
        return fail("another last look");
    }
    Ok(())
}

/// Fails unless the last look is the same by the listing that there is, by one that is of now, cut
/// off or ahead, and without one.
fn looks_agree(alloc: Global, spool: &MemorySpool) -> Result<(), Fail> {
    let mut now = spool.copy(alloc)?;
    go(alloc, &mut now, "list")?;
    let look = now.listing.as_slice();
    let ahead = format!(in alloc; "listing\t{}\t0\n", spool.lines.len().saturating_add(1))?;
    agrees(alloc, spool, look, look)?;
    agrees(alloc, spool, &[], look)?;
    agrees(alloc, spool, ahead.as_bytes(), look)?;
    match look {
        [front @ .., _newline] => agrees(alloc, spool, front, look),
        [] => fail("no listing"),
    }
}

/// Does steps with a new spool. Returns what each wrote or its error, with the row `--` between,
/// and then the contents that are kept.
pub fn done(alloc: Global, steps: &[String]) -> Result<String, Fail> {
    let mut spool = MemorySpool::new(alloc);
    let mut out = String::new(alloc);
    for step in steps {
        if !is_prepared(&mut spool, step)? {
            if !out.is_empty() {
                out.push_str("--\n")?;
            }
            tell(alloc, &mut out, &mut spool, step)?;
        }
    }
    push_kept(alloc, &mut out, &spool)?;
    looks_agree(alloc, &spool)?;
    Ok(out)
}

/// Returns what a listing of a spool with these files is, or an error; and then, after the row
/// `--`, what its file `lines` is after a record, or an error.
pub fn last(alloc: Global, first: &str, listing: &str, lines: &str) -> Result<String, Fail> {
    let mut spool = MemorySpool::new(alloc);
    spool.first.extend_from_slice(first.as_bytes())?;
    spool.listing.extend_from_slice(listing.as_bytes())?;
    spool.lines.extend_from_slice(lines.as_bytes())?;
    let mut out = String::new(alloc);
    let mut listed = spool.copy(alloc)?;
    tell(alloc, &mut out, &mut listed, "list")?;
    out.push_str("--\n")?;
    let before = spool.copy(alloc)?;
    let mut watched = MemoryWatched::of(alloc, FOLDER)?;
    match act(alloc, &mut spool, &mut watched, EXIT)? {
        Ok(()) => out.push_str(utf8(spool.lines.as_slice())?)?,
        Err(error) => {
            out.push_str(format!(in alloc; "{error:?}\n")?.as_str())?;
            if !spool.is_same(&before) {
                return fail("an error changed the spool");
            }
        }
    }
    Ok(out)
}
