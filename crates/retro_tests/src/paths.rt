//! Names, paths, and the paths that texts name.
use retro_rows::{fail, path, path_text, text};
use retro_tree::{Name, NoMem, Path, Resolved, VarName, is_relative, resolve};
use std::alloc::Global;
use std::test::Fail;

/// Returns the result of resolving a text, as text.
fn resolved_text(alloc: Global, resolved: &Resolved) -> Result<String, NoMem> {
    match resolved {
        Resolved::Is(path) => path_text(alloc, path.names()),
        Resolved::Empty => text(alloc, "empty"),
        Resolved::LongName => text(alloc, "long"),
    }
}

/// Returns what `resolve` returns for a text in a directory.
pub fn resolved(alloc: Global, cwd: &str, given: &str) -> Result<String, Fail> {
    let cwd = path(alloc, cwd)?;
    let resolved = resolve(alloc, &cwd, given)?;
    Ok(resolved_text(alloc, &resolved)?)
}

/// Returns a truth value as text.
pub fn bool_text(alloc: Global, holds: bool) -> Result<String, NoMem> {
    text(alloc, if holds { "true" } else { "false" })
}

/// Returns whether a text is relative.
pub fn relative(alloc: Global, text: &str) -> Result<String, NoMem> {
    let relative = is_relative(alloc, text)?;
    bool_text(alloc, relative)
}

/// Returns whether a text is a name.
pub fn is_name(alloc: Global, given: &str) -> Result<String, NoMem> {
    let name = text(alloc, given)?;
    bool_text(alloc, Name::of(name).is_some())
}

/// Returns the name of the variable that a text names, or `none`.
pub fn variable(alloc: Global, given: &str) -> Result<String, NoMem> {
    match VarName::of(alloc, given)? {
        Some(name) => text(alloc, name.copy()?.as_str()),
        None => text(alloc, "none"),
    }
}

/// Returns copies of texts.
fn copies(alloc: Global, texts: &[String]) -> Result<Vec<String>, NoMem> {
    let mut copies = Vec::new(alloc);
    for text in texts {
        copies.push(text.clone()?)?;
    }
    Ok(copies)
}

/// Returns the path of these names, or `none`.
pub fn joined_path(alloc: Global, names: &[String]) -> Result<String, NoMem> {
    match Path::of(alloc, copies(alloc, names)?)? {
        Some(path) => path_text(alloc, path.names()),
        None => text(alloc, "none"),
    }
}

/// Returns the parent of a path.
fn parent_of(alloc: Global, path: &Path) -> Result<String, NoMem> {
    let parent = path.parent(alloc)?;
    path_text(alloc, parent.names())
}

/// Returns the parent of the path that a text names.
pub fn parent(alloc: Global, given: &str) -> Result<String, Fail> {
    let path = path(alloc, given)?;
    Ok(parent_of(alloc, &path)?)
}

/// Returns the child of a path with a copy of a name.
fn child_of(alloc: Global, path: &Path, name: &Name) -> Result<String, NoMem> {
    let name = name.copy()?;
    let child = path.child(alloc, &name)?;
    path_text(alloc, child.names())
}

/// Returns the child with a name of the path that a text names. Fails if the name isn't one.
pub fn child(alloc: Global, given: &str, name: &str) -> Result<String, Fail> {
    let path = path(alloc, given)?;
    match Name::of(text(alloc, name)?) {
        Some(name) => Ok(child_of(alloc, &path, &name)?),
        None => fail("no name"),
    }
}

/// Returns the names of a path below a prefix, or `none`.
fn names_below(alloc: Global, path: &Path, prefix: &Path) -> Result<String, NoMem> {
    match path.strip_prefix(prefix) {
        Some(names) => path_text(alloc, names),
        None => text(alloc, "none"),
    }
}

/// Returns the names of a path below a prefix, or `none`. Texts name both.
pub fn below(alloc: Global, given: &str, prefix: &str) -> Result<String, Fail> {
    let prefix = path(alloc, prefix)?;
    let given = path(alloc, given)?;
    Ok(names_below(alloc, &given, &prefix)?)
}

/// Returns paths as text, each followed by a space.
fn paths_text(alloc: Global, paths: &[Path]) -> Result<String, NoMem> {
    let mut out = String::new(alloc);
    for path in paths {
        out.push_str(&path_text(alloc, path.names())?)?;
        out.push(' ')?;
    }
    Ok(out)
}

/// Returns the prefixes of a path, each followed by a space.
fn prefixes_of(alloc: Global, path: &Path) -> Result<String, NoMem> {
    let prefixes = path.prefixes(alloc)?;
    paths_text(alloc, &prefixes)
}

/// Returns the prefixes of the path that a text names, each followed by a space.
pub fn prefixes(alloc: Global, given: &str) -> Result<String, Fail> {
    let path = path(alloc, given)?;
    Ok(prefixes_of(alloc, &path)?)
}
