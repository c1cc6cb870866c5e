//! Reads paths as documents write them: `/a/b`, and `/` for the root.
ghost use Rattle.std.specs.Prelude.{◌≡◌, ◌==◌, IfOk, map, option_map};
ghost use Rattle.std.specs.List.{slice_split};
ghost use Rattle.retro_path.specs.Ascii.{slash};
ghost use Rattle.retro_path.specs.Name.{AllNames};
ghost use Rattle.retro_value.specs.Borrowed.{value_data};
ghost use Rattle.retro_json.specs.NoNul.{have_no_nul};
ghost use Rattle.retro_json.specs.PathText.{is_written_name, names_of_parts};
ghost use Rattle.casebook_snapshot_read.specs.Paths.{child_named, child_of_names, child_of_text};
ghost use Rattle.casebook_snapshot_read.specs.Paths.{path_in, path_named, path_of_text};
ghost use Rattle.casebook_snapshot_read.specs.Paths.{child_view};

use crate::NoMem;
use casebook_snapshot::Child;
use json::Value;
use retro_path::Path;
use retro_value::text_in;
use std::alloc::Global;

/// The byte before each name of a path.
const SLASH: u8 = b'/';

/// The byte that no written name contains.
const NUL: u8 = 0;

/// Returns whether bytes may be written as a name: they aren't empty, `.` or `..`, and have neither
/// a slash nor a NUL. Their number isn't tested.
#[tactic(auto, unfolding(retro_json::specs::PathText::is_written_name))]
pub(crate) fn is_written_name(name: &[u8]) -> bool
    ensures { result ≡ is_written_name name.now }
{
    !name.is_empty()
        && !(name == b".".as_slice() || name == b"..".as_slice())
        && !name.contains(&SLASH)
        && !name.contains(&NUL)
}

/// Splits a text at its slashes. Returns the parts, empty ones too.
fn split_path(alloc: Global, text: &str) -> Result<Vec<&str>, NoMem>
    ensures { IfOk result (λ parts.
        map (λ part. part.now) parts.items ≡ slice_split (λ b. b == slash) text.now) }
{
    text.split('/').collect(alloc)
}

/// Returns the names of a path, from the parts of its text: all parts after the first slash, or
/// none for the root. Returns `None` if the text doesn't begin with a slash.
fn names_of_parts<'p, 't>(parts: &'p [&'t str]) -> Option<&'p [&'t str]>
    ensures { option_map (λ names. map (λ name. name.now) names.now) result
        ≡ names_of_parts (map (λ part. part.now) parts.now) }
{
    match parts {
        [front, names @ ..] if front.is_empty() => match names {
            [] => None,
            [name] if name.is_empty() => Some(&names[1..]),
            _ => Some(names),
        },
        _ => None,
    }
}

/// Returns whether no name of a path has a NUL.
fn have_no_nul(path: &Path) -> bool
    ensures value { result ≡ have_no_nul path.now }
    ensures names { AllNames path.now }
{
    !path.as_str().as_bytes().contains(&NUL)
}

/// Returns the path of some names, or `None` if there is no such path in a document.
fn path_named(alloc: Global, names: &[&str]) -> Result<Option<Path>, NoMem>
    ensures { IfOk result (λ path. path ≡ path_named (map (λ name. name.now) names.now)) }
{
    match Path::of_names(alloc, names)? {
        Some(path) => {
            if have_no_nul(&path) {
                Ok(Some(path))
            } else {
                Ok(None)
            }
        }
        None => Ok(None),
    }
}

/// Returns the path that a text names, if it names one.
#[tactic(auto, unfolding(retro_json::specs::PathText::names_in))]
fn path_of_text(alloc: Global, text: &str) -> Result<Option<Path>, NoMem>
    ensures { IfOk result (λ path. path ≡ path_of_text text.now) }
{
    let parts = split_path(alloc, text)?;
    match names_of_parts(parts.as_slice()) {
        Some(names) => path_named(alloc, names),
        None => Ok(None),
    }
}

/// Reads a path.
pub(crate) fn path_in(alloc: Global, value: &Value<'_>) -> Result<Option<Path>, NoMem>
    ensures { IfOk result (λ path. path ≡ path_in (value_data value.now)) }
{
    match text_in(value) {
        Some(text) => path_of_text(alloc, text),
        None => Ok(None),
    }
}

/// Returns the child of a directory with a name that may be longer than a path's names are.
fn child_of(alloc: Global, front: &[&str], last: &str) -> Result<Option<Child>, NoMem>
    ensures { IfOk result (λ child. option_map child_view child
        ≡ child_named (map (λ name. name.now) front.now) last.now) }
{
    if !is_written_name(last.as_bytes()) {
        return Ok(None);
    }
    let Some(parent) = path_named(alloc, front)? else {
        return Ok(None);
    };
    let mut name = Vec::new(alloc);
    name.extend_from_slice(last.as_bytes())?;
    Ok(Some(Child { parent, name }))
}

/// Returns the directory and the name in it that some names lead to.
fn child_of_names(alloc: Global, names: &[&str]) -> Result<Option<Child>, NoMem>
    ensures { IfOk result (λ child. option_map child_view child
        ≡ child_of_names (map (λ name. name.now) names.now)) }
{
    match names {
        [front @ .., last] => child_of(alloc, front, last),
        [] => Ok(None),
    }
}

/// Returns the directory and the name in it that a text names.
#[tactic(auto, unfolding(retro_json::specs::PathText::names_in))]
pub(crate) fn child_of_text(alloc: Global, text: &str) -> Result<Option<Child>, NoMem>
    ensures { IfOk result (λ child. option_map child_view child ≡ child_of_text text.now) }
{
    let parts = split_path(alloc, text)?;
    match names_of_parts(parts.as_slice()) {
        Some(names) => child_of_names(alloc, names),
        None => Ok(None),
    }
}
