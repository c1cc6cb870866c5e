//! Reads paths as documents write them: `/a/b`, and `/` for the root.
ghost use Rattle.std.specs.Prelude.{◌≡◌, ◌==◌, map, IfOk, option_map, if◌then◌else◌};
ghost use Rattle.std.specs.List.{list_all, slice_split};
ghost use Rattle.retro_value.specs.Borrowed.{value_data};
ghost use Rattle.retro_json.specs.PathText.{is_written_name, names_of_parts, path_in, path_of};
ghost use Rattle.retro_tree.specs.Name.{AllNames};
ghost use Rattle.retro_json.specs.NoNul.{have_no_nul};
ghost use Rattle.retro_json.specs.declared.fault.Refusal.TheVariants.{OverLimit, WrongShape};

use crate::accepted;
use crate::fault::{Part, Refusal};
use crate::reading::shape::text;
use crate::reading::worst::OrRefusal;
use json::Value;
use retro_tree::{NoMem, Path};
use std::alloc::Global;

/// The byte before each name of a path.
const SLASH: u8 = b'/';

/// The byte that no written name contains.
const NUL: u8 = 0;

/// Returns whether a text may be written as a name in a path: it isn't empty, `.` or `..`, and has
/// neither a slash nor a NUL. Its length isn't tested.
#[tactic(auto, unfolding(crate::specs::PathText::is_written_name))]
pub fn is_written_name(name: &str) -> bool
    ensures { result ≡ is_written_name name.now }
{
    !name.is_empty()
        && !(name == "." || name == "..")
        && !name.as_bytes().contains(&SLASH)
        && !name.as_bytes().contains(&NUL)
}

/// Returns whether each text may be written as a name in a path.
fn are_written(names: &[&str]) -> bool
    ensures { result ≡ list_all is_written_name (map (λ name. name.now) names.now) }
{
    for name in names {
        if !is_written_name(name) {
            return false;
        }
    }
    true
}

/// Splits a text at its slashes. Returns the parts, empty ones too.
fn split_path(alloc: Global, text: &str) -> Result<Vec<&str>, NoMem>
    ensures { IfOk result (λ parts.
        map (λ part. part.now) parts.items ≡ slice_split (λ b. b == SLASH) text.now) }
{
    text.split('/').collect(alloc)
}

/// Returns the names of a path, from the parts of its text: all parts after the first slash, or
/// none for the root. Returns `None` if the text doesn't begin with a slash.
fn names_of_parts<'p, 't>(parts: &'p [&'t str]) -> Option<&'p [&'t str]>
    ensures { option_map (λ names. map (λ name. name.now) names.now) result
        ≡ names_of_parts (map (λ part. part.now) parts.now) }
{
    match parts {
        [front, names @ ..] if front.is_empty() => match names {
            [] => None,
            [name] if name.is_empty() => Some(&names[1..]),
            _ => Some(names),
        },
        _ => None,
    }
}

/// Returns whether no name of a path has a NUL.
fn have_no_nul(path: &Path) -> bool
    ensures value { result ≡ have_no_nul path.now }
    ensures names { AllNames path.now }
{
    !path.as_str().as_bytes().contains(&NUL)
}

/// Returns why names that don't make a path are refused: a wrong shape if one may not be written
/// as a name, and otherwise a broken limit, because one is too long.
fn names_fault(part: Part, names: &[&str]) -> Refusal
    ensures { result ≡ (if list_all is_written_name (map (λ name. name.now) names.now)
        then OverLimit else WrongShape part) }
{
    if are_written(names) {
        Refusal::OverLimit
    } else {
        Refusal::WrongShape(part)
    }
}

/// Returns the path of these names, or why they are refused. `Path::of_names` tests the names. Only
/// if it makes no path of them are they tested here, to find the refusal.
fn path_of(alloc: Global, part: Part, names: &[&str]) -> Result<OrRefusal<Path>, NoMem>
    ensures { IfOk result (λ path. path ≡ path_of part (map (λ name. name.now) names.now)) }
{
    match Path::of_names(alloc, names)? {
        Some(path) => {
            if have_no_nul(&path) {
                Ok(Ok(path))
            } else {
                Ok(Err(Refusal::WrongShape(part)))
            }
        }
        None => Ok(Err(names_fault(part, names))),
    }
}

/// Reads the path that a text names. `part` is the part of the document that a wrong shape names.
#[tactic(auto, unfolding(crate::specs::PathText::path_in, crate::specs::PathText::names_in))]
pub fn path_in(alloc: Global, part: Part, value: &Value<'_>) -> Result<OrRefusal<Path>, NoMem>
    ensures { IfOk result (λ path. path ≡ path_in part (value_data value.now)) }
{
    let text = accepted!(text(part, value));
    let parts = split_path(alloc, text)?;
    match names_of_parts(parts.as_slice()) {
        Some(names) => path_of(alloc, part, names),
        None => Ok(Err(Refusal::WrongShape(part))),
    }
}
