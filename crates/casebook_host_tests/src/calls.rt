//! The calls of rows.
use casebook_host::{logins, unseen};
use retro_path::Path;
use retro_rows::{path, path_text, utf8};
use std::alloc::Global;
use std::test::Fail;

/// Returns the paths of texts.
fn paths(alloc: Global, texts: &[String]) -> Result<Vec<Path>, Fail> {
    let mut paths = Vec::new(alloc);
    for text in texts {
        paths.push(path(alloc, text.as_str())?)?;
    }
    Ok(paths)
}

/// Returns the folders in which reading isn't seen, by a table of mounts.
pub fn unseen_folders(alloc: Global, table: &str, folders: &[String]) -> Result<String, Fail> {
    let folders = paths(alloc, folders)?;
    let mut out = String::new(alloc);
    for folder in &unseen(alloc, table.as_bytes(), folders.as_slice())? {
        if !out.is_empty() {
            out.push_str(", ")?;
        }
        out.push_str(path_text(alloc, folder.names())?.as_str())?;
    }
    Ok(out)
}

/// Returns who is logged in, by what `who` printed.
pub fn logged_in(alloc: Global, who: &str) -> Result<String, Fail> {
    let mut out = String::new(alloc);
    for login in &logins(alloc, who.as_bytes())? {
        if !out.is_empty() {
            out.push_str(", ")?;
        }
        out.push_str(utf8(login.name)?)?;
        out.push_str(" at ")?;
        out.push_str(utf8(login.terminal)?)?;
    }
    Ok(out)
}
