//! The calls of rows.
use crate::texts::sights;
use casebook_watch::{SightChange, Sights, delta_between, seen_between};
use retro_path::{NoMem, Path};
use retro_rows::fail;
use std::alloc::Global;
use std::test::Fail;

/// Appends a text after `; ` or `, `, if it isn't the first one.
fn push_after(out: &mut String, separator: &str, text: &str) -> Result<(), NoMem> {
    if !out.is_empty() {
        out.push_str(separator)?;
    }
    out.push_str(text)
}

/// Appends a list of paths with its name, if it isn't empty.
fn push_list(alloc: Global, out: &mut String, name: &str, paths: &[Path]) -> Result<(), NoMem> {
    if paths.is_empty() {
        return Ok(());
    }
    let mut list = String::new(alloc);
    for path in paths {
        push_after(&mut list, " ", path.as_str())?;
    }
    let line = format!(in alloc; "{name} {}", list.as_str())?;
    push_after(out, "; ", line.as_str())
}

/// Returns what happened to paths between two looks, as text, or `nothing`.
pub fn seen(alloc: Global, before: &str, after: &str) -> Result<String, Fail> {
    let seen = seen_between(alloc, &sights(alloc, before)?, &sights(alloc, after)?)?;
    let mut out = String::new(alloc);
    push_list(alloc, &mut out, "read", seen.read.as_slice())?;
    push_list(alloc, &mut out, "listed", seen.listed.as_slice())?;
    push_list(alloc, &mut out, "changed", seen.changed.as_slice())?;
    push_list(alloc, &mut out, "gone", seen.gone.as_slice())?;
    push_nothing(&mut out)?;
    Ok(out)
}

/// Appends `nothing` to an empty text.
fn push_nothing(out: &mut String) -> Result<(), NoMem> {
    if out.is_empty() {
        out.push_str("nothing")?;
    }
    Ok(())
}

/// Returns the word of a change: the path with the number that it has then, or `gone`.
fn change_text(alloc: Global, change: &SightChange) -> Result<String, NoMem> {
    match change.sight {
        Some(sight) => format!(in alloc; "{} {}", change.path.as_str(), sight.number),
        None => format!(in alloc; "{} gone", change.path.as_str()),
    }
}

/// Returns whether two looks say the same of each path.
fn are_same(one: &Sights, other: &Sights) -> bool {
    if one.len() != other.len() || one.is_empty() != other.is_empty() {
        return false;
    }
    for (path, sight) in one.iter() {
        if other.get(path) != Some(sight) {
            return false;
        }
    }
    true
}

/// Returns the changes that lead from one look to another, as text, or `nothing`. Fails if they
/// don't lead there.
pub fn delta(alloc: Global, before: &str, after: &str) -> Result<String, Fail> {
    let before = sights(alloc, before)?;
    let after = sights(alloc, after)?;
    let changes = delta_between(alloc, &before, &after)?;
    let mut out = String::new(alloc);
    for change in &changes {
        push_after(&mut out, ", ", change_text(alloc, change)?.as_str())?;
    }
    push_nothing(&mut out)?;
    if !are_same(&before.updated(changes.as_slice())?, &after) {
        return fail("the changes lead elsewhere");
    }
    Ok(out)
}
