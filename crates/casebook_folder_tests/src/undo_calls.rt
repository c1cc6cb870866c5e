//! The calls of rows about undo files.
use crate::texts::{found, found_text, name, push_after};
use casebook_folder::{Row, Rows};
use casebook_undo::{UndoFault, UndoFile, WriteFault, read_rows, write_rows};
use retro_path::NoMem;
use retro_rows::{fail, path};
use std::alloc::Global;
use std::test::Fail;

/// Returns the row that a text says: `/a file x 640 7 8 > missing`.
fn row(alloc: Global, text: &str) -> Result<Row, Fail> {
    let Some((before, after)) = text.split_once(" > ") else {
        return fail("no row");
    };
    let before: Vec<&str> = before.split(' ').collect(alloc)?;
    let after: Vec<&str> = after.split(' ').collect(alloc)?;
    let [name, before @ ..] = before.as_slice() else {
        return fail("no path");
    };
    Ok(Row {
        path: path(alloc, name)?,
        before: found(alloc, before)?,
        after: found(alloc, after.as_slice())?,
    })
}

/// Returns the rows of a field, which `, ` separates, or no rows for `none`.
fn rows_of(alloc: Global, field: &str) -> Result<Rows, Fail> {
    let mut rows = Vec::new(alloc);
    if field != "none" {
        for text in field.split(", ") {
            rows.push(row(alloc, text)?)?;
        }
    }
    Ok(Rows::of(rows)?)
}

/// Returns rows as a text.
fn rows_text(alloc: Global, rows: &Rows) -> Result<String, NoMem> {
    if rows.items.is_empty() {
        return format!(in alloc; "none");
    }
    let mut out = String::new(alloc);
    for row in &rows.items {
        let text = format!(in alloc;
            "{} {} > {}",
            name(&row.path),
            found_text(alloc, &row.before)?.as_str(),
            found_text(alloc, &row.after)?.as_str()
        )?;
        push_after(&mut out, ", ", text.as_str())?;
    }
    Ok(out)
}

/// Returns what an undo file says as a text, or the fault.
fn file_text(alloc: Global, read: Result<UndoFile, UndoFault>) -> Result<String, NoMem> {
    match read {
        Ok(file) => format!(in alloc;
            "{}: {}",
            name(&file.at),
            rows_text(alloc, &file.rows)?.as_str()
        ),
        Err(fault) => format!(in alloc; "{fault:?}"),
    }
}

/// Returns the undo file of rows, or the fault. Fails if it isn't read as the same rows.
pub fn written(alloc: Global, at: &str, rows: &str) -> Result<String, Fail> {
    let kept = rows_of(alloc, rows)?;
    let bytes = match write_rows(alloc, &kept, &path(alloc, at)?) {
        Ok(bytes) => bytes,
        Err(fault) => return Ok(format!(in alloc; "{fault:?}")?),
    };
    let again = file_text(alloc, read_rows(alloc, bytes.as_slice()))?;
    let wanted = format!(in alloc; "{at}: {}", rows_text(alloc, &kept)?.as_str())?;
    if again.as_str() != wanted.as_str() {
        return fail("other rows are read");
    }
    match String::from_utf8(bytes) {
        Ok(text) => Ok(text),
        Err(_) => fail("not UTF-8"),
    }
}

/// Returns what a text says as an undo file, or the fault.
pub fn read(alloc: Global, text: &str) -> Result<String, Fail> {
    Ok(file_text(alloc, read_rows(alloc, text.as_bytes()))?)
}

/// Returns what bytes, written as decimal numbers, say as an undo file, or the fault.
pub fn read_bytes(alloc: Global, numbers: &str) -> Result<String, Fail> {
    let mut bytes: Vec<u8> = Vec::new(alloc);
    for number in numbers.split(' ') {
        bytes.push(number.parse()?)?;
    }
    Ok(file_text(alloc, read_rows(alloc, bytes.as_slice()))?)
}
