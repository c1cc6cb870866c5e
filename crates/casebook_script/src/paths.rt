//! Reads paths as scripts write them: `/a/b`, and `/` for the root.
ghost use Rattle.std.specs.Prelude.{◌≡◌, ◌==◌, IfOk, map, option_map};
ghost use Rattle.std.specs.List.{slice_split};
ghost use Rattle.retro_path.specs.Ascii.{slash};
ghost use Rattle.retro_path.specs.Name.{AllNames};
ghost use Rattle.retro_json.specs.NoNul.{have_no_nul};
ghost use Rattle.retro_json.specs.PathText.{names_of_parts};
ghost use Rattle.casebook_script.specs.Paths.{path_named, path_of_text};

use crate::NoMem;
use retro_path::Path;
use std::alloc::Global;

/// The byte that no name in a script contains.
const NUL: u8 = 0;

/// Splits a text at its slashes. Returns the parts, empty ones too.
fn split_path(alloc: Global, text: &str) -> Result<Vec<&str>, NoMem>
    ensures { IfOk result (λ parts.
        map (λ part. part.now) parts.items ≡ slice_split (λ b. b == slash) text.now) }
{
    text.split('/').collect(alloc)
}

/// Returns the names of a path, from the parts of its text: all parts after the first slash, or
/// none for the root. Returns `None` if the text doesn't begin with a slash.
fn names_of_parts<'p, 't>(parts: &'p [&'t str]) -> Option<&'p [&'t str]>
    ensures { option_map (λ names. map (λ name. name.now) names.now) result
        ≡ names_of_parts (map (λ part. part.now) parts.now) }
{
    match parts {
        [front, names @ ..] if front.is_empty() => match names {
            [] => None,
            [name] if name.is_empty() => Some(&names[1..]),
            _ => Some(names),
        },
        _ => None,
    }
}

/// Returns whether no name of a path has a NUL.
fn have_no_nul(path: &Path) -> bool
    ensures value { result ≡ have_no_nul path.now }
    ensures names { AllNames path.now }
{
    !path.as_str().as_bytes().contains(&NUL)
}

/// Returns the path of some names, or `None` if no script can have it.
fn path_named(alloc: Global, names: &[&str]) -> Result<Option<Path>, NoMem>
    ensures { IfOk result (λ path. path ≡ path_named (map (λ name. name.now) names.now)) }
{
    match Path::of_names(alloc, names)? {
        Some(path) => {
            if have_no_nul(&path) {
                Ok(Some(path))
            } else {
                Ok(None)
            }
        }
        None => Ok(None),
    }
}

/// Returns the path that a text names, if it names one.
#[tactic(auto, unfolding(retro_json::specs::PathText::names_in))]
pub(crate) fn path_of_text(alloc: Global, text: &str) -> Result<Option<Path>, NoMem>
    ensures { IfOk result (λ path. path ≡ path_of_text text.now) }
{
    let parts = split_path(alloc, text)?;
    match names_of_parts(parts.as_slice()) {
        Some(names) => path_named(alloc, names),
        None => Ok(None),
    }
}
