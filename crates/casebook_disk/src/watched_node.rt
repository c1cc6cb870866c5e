//! What files and links in watched folders hold.
use crate::place::{look_at, name_in};
use crate::reading::{FILE_LIMIT, TRIES, is_unchanged, read_unchanged};
use crate::scope::Scope;
use crate::sighting::sight_of;
use casebook_observe::Found;
use casebook_spool::Unkept;
use casebook_watch::Sight;
use retro_path::Bytes;
use std::alloc::Global;
use std::fs::{self, File, Metadata};
use std::io;

/// What was read, and how.
#[derive(Drop)]
pub(crate) struct Reading {
    /// What was found.
    pub(crate) found: Found,
    /// The sights before and after it was read, if it was.
    pub(crate) sights: Option<(Sight, Sight)>,
}

impl Reading {
    /// Returns that nothing was read, and why.
    fn unkept(why: Unkept) -> Reading {
        Reading {
            found: Found::Unkept(why),
            sights: None,
        }
    }

    /// Returns what was found between two looks.
    fn of(found: Found, before: &Metadata, after: &Metadata, scope: Scope) -> Reading {
        Reading {
            found,
            sights: Some((sight_of(before, scope), sight_of(after, scope))),
        }
    }
}

/// Reads the link at a name, if it is still the one that was seen there.
fn read_target(
    rt: &HostRuntime,
    alloc: Global,
    name: &str,
    there: &Metadata,
) -> io::Result<Option<(Bytes, Metadata)>> {
    let target = fs::read_link(rt, name)?;
    let mut bytes = Bytes::new(alloc);
    bytes.extend(target.into_string().as_bytes())?;
    match look_at(rt, name)? {
        Some(after) if is_unchanged(there, &after) => Ok(Some((bytes, after))),
        _ => Ok(None),
    }
}

/// Reads what is at a name once, or returns `None` if it changes meanwhile.
fn read_once(
    rt: &HostRuntime,
    alloc: Global,
    name: &str,
    scope: Scope,
) -> io::Result<Option<Reading>> {
    let Some(there) = look_at(rt, name)? else {
        return Ok(Some(Reading::unkept(Unkept::Changing)));
    };
    if there.is_symlink() && scope.has(&there) {
        return match read_target(rt, alloc, name, &there)? {
            Some((target, after)) => Ok(Some(Reading::of(
                Found::Target(target),
                &there,
                &after,
                scope,
            ))),
            None => Ok(None),
        };
    }
    if !there.is_file() || !scope.has(&there) {
        return Ok(Some(Reading::unkept(Unkept::Changing)));
    }
    if there.len() > FILE_LIMIT {
        return Ok(Some(Reading::unkept(Unkept::TooLarge)));
    }
    match read_unchanged(rt, alloc, name, &there)? {
        Some((bytes, after)) => Ok(Some(Reading::of(Found::Bytes(bytes), &there, &after, scope))),
        None => Ok(None),
    }
}

/// Reads the file or the link at a name in an open directory. What changes while it is read is read
/// again.
pub(crate) fn read_in(
    rt: &HostRuntime,
    alloc: Global,
    dir: &File,
    name: &str,
) -> io::Result<Reading> {
    let scope = Scope::of(dir)?;
    let at = name_in(alloc, dir, name)?;
    for _ in 0..TRIES {
        if let Some(reading) = read_once(rt, alloc, at.as_str(), scope)? {
            return Ok(reading);
        }
    }
    Ok(Reading::unkept(Unkept::Changing))
}
