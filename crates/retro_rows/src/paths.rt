//! Paths that rows name, and paths as the texts of rows.
use crate::failure::fail;
use crate::texts::text;
use retro_path::{Names, NoMem, Path, Resolved, resolve};
use std::alloc::Global;
use std::test::Fail;

/// Returns the path that a text names from the root. Fails if it names none.
pub fn path(alloc: Global, text: &str) -> Result<Path, Fail> {
    let root = Path::root(alloc);
    match resolve(alloc, &root, text)? {
        Resolved::Is(path) => Ok(path),
        _ => fail("no path"),
    }
}

/// Returns the path of these names as text, `/` for none.
pub fn path_text(alloc: Global, names: Names<'_>) -> Result<String, NoMem> {
    if names.is_empty() {
        return text(alloc, "/");
    }
    let mut text = String::new(alloc);
    for name in names {
        text.push('/')?;
        text.push_str(name)?;
    }
    Ok(text)
}
