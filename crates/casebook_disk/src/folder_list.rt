//! The list of the folders that are watched: a row for each, with its path as a text of rows.
use crate::NoMem;
use casebook_rows::{path_of, push_path, rows_of};
use retro_path::Path;
use std::alloc::Global;

/// Returns the row of a folder, without a newline.
pub(crate) fn folder_row(alloc: Global, folder: &Path) -> Result<String, NoMem> {
    let mut field = String::new(alloc);
    push_path(&mut field, folder)?;
    // A field begins with a tab.
    String::from_str(alloc, field.as_str().trim_start_matches('\t'))
}

/// Returns the text of a list of folders.
pub(crate) fn folders_text(alloc: Global, folders: &[Path]) -> Result<String, NoMem> {
    let mut text = String::new(alloc);
    for folder in folders {
        text.push_str(folder_row(alloc, folder)?.as_str())?;
        text.push('\n')?;
    }
    Ok(text)
}

/// Returns the folders of a list, or `None` if it isn't one: each row is a path, and ends with a
/// newline.
pub(crate) fn folders_in(alloc: Global, text: &[u8]) -> Result<Option<Vec<Path>>, NoMem> {
    let rows = rows_of(alloc, text)?;
    let Some((last, rows)) = rows.as_slice().split_last() else {
        return Ok(None);
    };
    if !last.is_empty() {
        return Ok(None);
    }
    let mut folders = Vec::new(alloc);
    for row in rows {
        match path_of(alloc, row)? {
            Some(folder) => folders.push(folder)?,
            None => return Ok(None),
        }
    }
    Ok(Some(folders))
}
