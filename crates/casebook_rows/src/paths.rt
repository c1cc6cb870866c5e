//! Reads paths.
ghost use Rattle.std.specs.Prelude.{◌≡◌, ◌==◌, IfOk, map, option_map};
ghost use Rattle.std.specs.List.{slice_split};
ghost use Rattle.retro_path.specs.Ascii.{slash};
ghost use Rattle.casebook_rows.specs.Reading.{after_slash, path_of, path_of_text};

use crate::NoMem;
use crate::reading::text_of;
use retro_path::Path;
use std::alloc::Global;
use std::str::from_utf8;

/// Splits a text at its slashes. Returns the parts, empty ones too.
fn split_path(alloc: Global, text: &str) -> Result<Vec<&str>, NoMem>
    ensures { IfOk result (λ parts.
        map (λ part. part.now) parts.items ≡ slice_split (λ b. b == slash) text.now) }
{
    text.split('/').collect(alloc)
}

/// Returns the parts after the first slash of a text, if nothing is before it.
fn after_slash<'p, 't>(parts: &'p [&'t str]) -> Option<&'p [&'t str]>
    ensures { option_map (λ names. map (λ name. name.now) names.now) result
        ≡ after_slash (map (λ part. part.now) parts.now) }
{
    match parts {
        [front, names @ ..] if front.is_empty() => Some(names),
        _ => None,
    }
}

/// Returns the path of a text: `/a/b`, or nothing for the root.
fn path_of_text(alloc: Global, text: &str) -> Result<Option<Path>, NoMem>
    ensures { IfOk result (λ path. path ≡ path_of_text text.now) }
{
    let parts = split_path(alloc, text)?;
    match after_slash(parts.as_slice()) {
        Some(names) => Path::of_names(alloc, names),
        None => Ok(None),
    }
}

/// Returns the path that a field is. The names of a path are UTF-8, 1 to 255 bytes, and neither
/// `.` nor `..`.
pub fn path_of(alloc: Global, field: &[u8]) -> Result<Option<Path>, NoMem>
    ensures { IfOk result (λ path. path ≡ path_of field.now) }
{
    let text = text_of(alloc, field)?;
    match from_utf8(text.as_slice()) {
        Ok(text) => path_of_text(alloc, text),
        Err(_) => Ok(None),
    }
}
