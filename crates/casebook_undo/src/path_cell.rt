//! Reads paths as documents write them: `/a/b`, and `/` for the root.
ghost use Rattle.std.specs.Prelude.{◌≡◌, ◌==◌, IfOk, map, option_map};
ghost use Rattle.std.specs.List.{slice_split};
ghost use Rattle.serde_json.specs.View.{view};
ghost use Rattle.retro_path.specs.Ascii.{slash};
ghost use Rattle.retro_json.specs.PathText.{names_of_parts};
ghost use Rattle.casebook_undo.specs.Cells.{path_in, path_named, path_of_text};
ghost use Rattle.casebook_undo.specs.inner.Faults.{ReadsCell};

use crate::NoMem;
use crate::cell_fault::CellFault;
use retro_path::Path;
use serde_json::Value;
use std::alloc::Global;

/// Splits a text at its slashes. Returns the parts, empty ones too.
fn split_path(alloc: Global, text: &str) -> Result<Vec<&str>, NoMem>
    ensures { IfOk result (λ parts.
        map (λ part. part.now) parts.items ≡ slice_split (λ b. b == slash) text.now) }
{
    text.split('/').collect(alloc)
}

/// Returns the names of a path, from the parts of its text: all parts after the first slash, or
/// none for the root. Returns `None` if the text doesn't begin with a slash.
fn names_of_parts<'p, 't>(parts: &'p [&'t str]) -> Option<&'p [&'t str]>
    ensures { option_map (λ names. map (λ name. name.now) names.now) result
        ≡ names_of_parts (map (λ part. part.now) parts.now) }
{
    match parts {
        [front, names @ ..] if front.is_empty() => match names {
            [] => None,
            [name] if name.is_empty() => Some(&names[1..]),
            _ => Some(names),
        },
        _ => None,
    }
}

/// Returns the path of these names.
fn path_named(alloc: Global, names: &[&str]) -> Result<Path, CellFault>
    ensures { ReadsCell result (path_named (map (λ name. name.now) names.now)) }
{
    match Path::of_names(alloc, names)? {
        Some(path) => Ok(path),
        None => Err(CellFault::WrongShape),
    }
}

/// Returns the path that a text names.
#[tactic(auto, unfolding(retro_json::specs::PathText::names_in))]
fn path_of_text(alloc: Global, text: &str) -> Result<Path, CellFault>
    ensures { ReadsCell result (path_of_text text.now) }
{
    let parts = split_path(alloc, text)?;
    match names_of_parts(parts.as_slice()) {
        Some(names) => path_named(alloc, names),
        None => Err(CellFault::WrongShape),
    }
}

/// Reads a path from its text.
pub(crate) fn path_in(alloc: Global, value: &Value) -> Result<Path, CellFault>
    ensures { ReadsCell result (path_in (view value.now)) }
{
    match value.as_str() {
        Some(text) => path_of_text(alloc, text),
        None => Err(CellFault::WrongShape),
    }
}
