//! Resolution of texts to paths.
ghost use Rattle.std.specs.Prelude.{◌≡◌, IfOk, map, false, List, ℕ};
ghost use Rattle.std.specs.List.{list_any};
ghost use Rattle.retro_path.specs.Path.{PathValue};
ghost use Rattle.retro_path.specs.Resolving.{parts_of, walk, is_long, start_of, resolve};
ghost use Rattle.retro_path.specs.Resolving.{resolve_parts, is_relative};

use crate::NoMem;
use crate::name::NAME_LIMIT;
use crate::path::Path;
use std::alloc::Global;

/// What a text resolves to.
#[derive(Drop, Clone)]
pub enum Resolved {
    /// A path.
    Is(Path),
    /// No path, because the text is empty.
    Empty,
    /// No path, because a name in the text exceeds `NAME_LIMIT`.
    LongName,
}

/// Splits a text at slashes.
fn parts_of(alloc: Global, text: &str) -> Result<Vec<&str>, NoMem>
    ensures { IfOk result (λ parts. map (λ part. part.now) parts.items ≡ parts_of text.now) }
{
    text.split('/').collect(alloc)
}

/// Returns whether a part exceeds `NAME_LIMIT`.
fn has_long(parts: &[&str]) -> bool
    ensures { result ≡ list_any is_long (map (λ part. part.now) parts.now) }
{
    for part in parts {
        if part.len() > NAME_LIMIT {
            return true;
        }
    }
    false
}

/// Returns where resolution starts: at the root if the text begins with a slash, and at `cwd`
/// otherwise.
fn start_of(alloc: Global, cwd: &Path, text: &str) -> Result<Path, NoMem>
    ensures { IfOk result (λ start. start ≡ start_of cwd.now text.now) }
{
    match text.as_bytes() {
        [b'/', ..] => Ok(Path::root(alloc)),
        _ => cwd.copy(),
    }
}

/// Returns the path that is reached from `start` by following the parts of a text.
fn walk(start: Path, parts: &[&str]) -> Result<Path, NoMem>
    ensures { IfOk result (λ path. path ≡ walk start (map (λ part. part.now) parts.now)) }
{
    let mut path = start;
    for part in parts {
        path = path.enter(part)?;
    }
    Ok(path)
}

/// Returns the path that a text names from a directory. Only the text counts, not which files
/// exist.
///
/// The text is split at slashes. A text that begins with a slash starts at the root. Empty parts
/// and `.` are skipped, and `..` removes the last name, if there is one. A part of more than 255
/// bytes gives `LongName`, even if a later `..` removes it.
pub fn resolve(alloc: Global, cwd: &Path, text: &str) -> Result<Resolved, NoMem>
    ensures { IfOk result (λ resolved. resolved ≡ resolve cwd.now text.now) }
{
    if text.is_empty() {
        return Ok(Resolved::Empty);
    }
    let parts = parts_of(alloc, text)?;
    if has_long(parts.as_slice()) {
        return Ok(Resolved::LongName);
    }
    let start = start_of(alloc, cwd, text)?;
    Ok(Resolved::Is(walk(start, parts.as_slice())?))
}

/// Returns whether the path that a text names depends on the directory. It doesn't if the text is
/// empty, begins with a slash, or has a part that is too long.
#[tactic(auto, unfolding(crate::specs::Resolving::is_relative))]
pub fn is_relative(alloc: Global, text: &str) -> Result<bool, NoMem>
    ensures { IfOk result (λ relative. relative ≡ is_relative text.now) }
{
    match text.as_bytes() {
        [] | [b'/', ..] => Ok(false),
        [_, ..] => {
            let parts = parts_of(alloc, text)?;
            Ok(!has_long(parts.as_slice()))
        }
    }
}

/// States that a text that isn't relative resolves to the same path in every directory.
#[tactic(auto, using(crate::proofs::Alike::resolve_alike))]
pub fn resolve_ignores_the_directory()
    ensures { (p q : PathValue) (text : List ℕ)
        → is_relative text ≡ false → resolve p text ≡ resolve q text }
{}
