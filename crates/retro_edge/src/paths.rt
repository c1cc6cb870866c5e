//! Paths that words name.
ghost use Rattle.std.specs.Prelude.{◌≡◌, IfOk, map, option_map};
ghost use Rattle.retro_edge.specs.Paths.{begins_at_root, path_named};
ghost use Rattle.retro_edge.specs.Reads.{all_read};

use retro_path::{Path, Resolved, resolve};
use retro_text::NoMem;
use std::alloc::Global;

/// Returns whether a text begins with a slash.
fn begins_at_root(text: &[u8]) -> bool
    ensures { result ≡ begins_at_root text.now }
{
    match text {
        [b'/', ..] => true,
        _ => false,
    }
}

/// Returns the path that a text names, which begins at the root.
#[tactic(auto, unfolding(crate::specs::Paths::path_named))]
pub fn path_named(alloc: Global, text: &str) -> Result<Option<Path>, NoMem>
    ensures { IfOk result (λ path. path ≡ path_named text.now) }
{
    if !begins_at_root(text.as_bytes()) {
        return Ok(None);
    }
    match resolve(alloc, &Path::root(alloc), text)? {
        Resolved::Is(path) => Ok(Some(path)),
        _ => Ok(None),
    }
}

/// Returns the path that each text names, or `None` if one names none.
pub fn paths_named(alloc: Global, texts: &[&str]) -> Result<Option<Vec<Path>>, NoMem>
    ensures { IfOk result (λ found. option_map (λ v. v.items) found
        ≡ all_read path_named (map (λ s. s.now) texts.now)) }
{
    let mut paths = Vec::new(alloc);
    for text in texts {
        let path = path_named(alloc, text)?;
        match path {
            Some(path) => paths.push(path)?,
            None => return Ok(None),
        }
    }
    Ok(Some(paths))
}
