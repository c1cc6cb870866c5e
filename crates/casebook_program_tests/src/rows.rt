//! The call that each row names, and the tests that make these calls.
//!
//! The first field of a row has the words of a command line, with spaces between them, or for
//! `numbers` the filters of `lines log`. In a word `_` is a space.
use crate::accounts::{ACCOUNTS, REFUSED_ACCOUNTS};
use crate::cases::{CASES, REFUSED_CASES};
use crate::memory::{coloured, ended, kept, refused, remarked, sent, written};
use crate::recorder::{RECORDED, REFUSED_RECORDS};
use crate::restores::{REFUSED_RESTORES, RESTORES};
use crate::scripts::{REFUSED_SCRIPTS, SCRIPTS};
use crate::snapshots::{COMPARISONS, REFUSED_SNAPSHOTS, SNAPSHOTS};
use crate::status::{REFUSED_STATUS, STATUS};
use crate::tables::{BYTES, LINES, OTHERS, PAGES, REFUSED, REPAIRS, TIMES};
use retro_rows::{fail, rows, text};
use std::alloc::AllocGlobal;
use std::test::Fail;
use std::thread::Threads;

/// Returns the numbers of the lines that pass filters.
fn numbers<T: Threads + Sync + AllocGlobal>(rt: &T, filters: &str) -> Result<String, Fail> {
    let words = format!(in rt.alloc(); "lines log --format numbers {filters}")?;
    let list = written(rt, words.as_str())?;
    Ok(text(rt.alloc(), list.as_str().trim_end())?)
}

/// Returns what more words add to what is written, or all that is written with them if it doesn't
/// begin with what is written without them.
fn added<T: Threads + Sync + AllocGlobal>(rt: &T, given: &str, more: &str) -> Result<String, Fail> {
    let words = format!(in rt.alloc(); "{given} {more}")?;
    let short = written(rt, given)?;
    let long = written(rt, words.as_str())?;
    let rest = long.as_str().strip_prefix(short.as_str());
    Ok(text(rt.alloc(), rest.unwrap_or(long.as_str()))?)
}

/// Returns `yes` if something holds, and else the text that it doesn't hold of.
fn yes_or<T: AllocGlobal>(rt: &T, holds: bool, other: &str) -> Result<String, Fail> {
    let told = if holds { "yes" } else { other };
    Ok(text(rt.alloc(), told)?)
}

/// Returns whether what is written has a part, begins with it, or is a page that has it.
fn has_part(call: &str, text: &str, part: &str) -> bool {
    match call {
        "begins" => text.starts_with(part),
        "page" => text.starts_with("<!doctype html>") && text.contains(part),
        _ => text.contains(part),
    }
}

/// Returns the result of a call for words and something to compare with.
fn compared<T: Threads + Sync + AllocGlobal>(
    rt: &T,
    call: &str,
    words: &str,
    other: &str,
) -> Result<String, Fail> {
    let text = match call {
        "coloured" => coloured(rt, words)?,
        _ => written(rt, words)?,
    };
    yes_or(rt, has_part(call, text.as_str(), other), text.as_str())
}

/// Returns `yes` if two requests have the same answer, and else the first one's.
fn same<T: Threads + Sync + AllocGlobal>(rt: &T, one: &str, two: &str) -> Result<String, Fail> {
    let answer = written(rt, one)?;
    let other = written(rt, two)?;
    yes_or(rt, answer == other, answer.as_str())
}

/// Returns `yes` if what a terminal with colours shows has none.
fn plain<T: Threads + Sync + AllocGlobal>(rt: &T, words: &str) -> Result<String, Fail> {
    let text = coloured(rt, words)?;
    yes_or(rt, !text.as_str().contains('\u{1B}'), text.as_str())
}

/// Returns the result of a call for these fields, as text.
fn called<T: Threads + Sync + AllocGlobal>(
    rt: &T,
    call: &str,
    given: &[String],
) -> Result<String, Fail> {
    match (call, given) {
        ("writes", [words]) => written(rt, words),
        ("numbers", [filters]) => numbers(rt, filters),
        ("ends", [words]) => ended(rt, words),
        ("refused", [words]) => refused(rt, words),
        ("remarks", [words]) => remarked(rt, words),
        ("keeps", [words]) => kept(rt, words),
        ("sends", [words]) => sent(rt, words, 0),
        ("forges", [words]) => sent(rt, words, 7),
        ("plain", [words]) => plain(rt, words),
        ("adds", [words, more]) => added(rt, words, more),
        ("same", [one, two]) => same(rt, one, two),
        (_, [words, other]) => compared(rt, call, words, other),
        _ => fail("no such call"),
    }
}

/// Makes the calls of a table. Fails with the first row whose call returns something else than it
/// wants.
fn hold<T: Threads + Sync + AllocGlobal>(rt: &T, table: &str) -> Result<(), Fail> {
    let alloc = rt.alloc();
    for row in &rows(alloc, table)? {
        let returned = called(rt, &row.call, &row.given)?;
        row.compare(alloc, &returned)?;
    }
    Ok(())
}

#[test]
fn lines_and_repairs_are_shown(rt: HostRuntime) -> Result<(), Fail> {
    for table in [LINES, TIMES, REPAIRS, BYTES] {
        hold(&rt, table)?;
    }
    Ok(())
}

#[test]
fn pages_checks_folders_and_helps_are_written(rt: HostRuntime) -> Result<(), Fail> {
    for table in [
        PAGES,
        OTHERS,
        SNAPSHOTS,
        COMPARISONS,
        SCRIPTS,
        RECORDED,
        CASES,
        ACCOUNTS,
        STATUS,
    ] {
        hold(&rt, table)?;
    }
    Ok(())
}

#[test]
fn folders_are_restored(rt: HostRuntime) -> Result<(), Fail> {
    hold(&rt, RESTORES)
}

#[test]
fn words_and_documents_are_refused(rt: HostRuntime) -> Result<(), Fail> {
    for table in [
        REFUSED,
        REFUSED_RESTORES,
        REFUSED_SNAPSHOTS,
        REFUSED_SCRIPTS,
        REFUSED_RECORDS,
        REFUSED_CASES,
        REFUSED_ACCOUNTS,
        REFUSED_STATUS,
    ] {
        hold(&rt, table)?;
    }
    Ok(())
}
