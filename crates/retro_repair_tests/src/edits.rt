//! Edits of lines.
use retro_keep::Edit;
use retro_rows::numbered;
use retro_tree::Text;
use std::alloc::Global;
use std::test::Fail;

/// Returns the edits of a list: numbers of lines that are cancelled, and numbers with a text.
pub fn edits(alloc: Global, list: &str) -> Result<Vec<Edit>, Fail> {
    let mut edits = Vec::new(alloc);
    for (number, line) in numbered(alloc, list)? {
        edits.push(match line {
            None => Edit::Cancel(number),
            Some(line) => Edit::Replace(number, Text::of(line)),
        })?;
    }
    Ok(edits)
}
