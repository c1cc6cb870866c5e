//! First looks and histories, read from texts.
//!
//! A field has entries that `, ` separates. In the words of an entry `_` is a space, and a word `-`
//! is empty.
//!
//! - `dir /d` is a directory, `file /f 5 6 text` a file that was written at second 5, was read at
//!   second 6 and has this text, and `lost /f text` one whose bytes aren't kept in spite of that.
//!   `large /f 5` is a file that is too large, `link /l to` a link, `gone /f` nothing.
//! - `start A /d x=1;y=2 shell` is the start of a session in a directory, with its variables and
//!   the text of its functions, aliases and options. Nothing is said of those that are `-`.
//! - `begin A 1 /d text` is the beginning of a line, and `end A 1 0 /d text` its end, with its
//!   status. `ends A 1 0 /d text x=1 shell` also says what is new.
use casebook_spool::Contents;
use retro_path::Bytes;
use retro_rows::fail;
use sha2::{Digest as _, Sha256};
use std::alloc::Global;
use std::test::Fail;

/// Returns the text of a word.
fn spaced(alloc: Global, word: &str) -> Result<String, Fail> {
    if word == "-" {
        return Ok(String::new(alloc));
    }
    Ok(word.replace(alloc, '_', " ")?)
}

/// Returns the row of the sight of a file, and then the row of its bytes.
fn file_rows(alloc: Global, path: &str, times: (&str, &str), text: &str) -> Result<String, Fail> {
    let digest = hex::encode(alloc, Sha256::digest(text.as_bytes()))?;
    let digest = digest.as_str();
    let (written, read) = times;
    Ok(format!(in alloc;
        "file\t{path}\t644\t0\t0\t1\t7\t{read}\t0\t{written}\t0\t{written}\t0\nbytes\t{path}\t{digest}\n"
    )?)
}

/// Returns the rows of a note.
fn note_rows(alloc: Global, kept: &mut Contents, words: &[&str]) -> Result<String, Fail> {
    let rows = match words {
        ["dir", path] => format!(in alloc; "dir\t{path}\t755\t0\t0\t1\t8\t0\t0\t0\t0\t0\t0\n")?,
        ["file", path, written, read, text] => {
            let text = spaced(alloc, text)?;
            let rows = file_rows(alloc, path, (written, read), text.as_str())?;
            kept.add(Bytes::of(text.into_bytes()))?;
            rows
        }
        ["lost", path, text] => file_rows(alloc, path, ("1", "1"), text)?,
        ["large", path, written] => format!(in alloc;
            "file\t{path}\t644\t0\t0\t2000000\t9\t1\t0\t1\t0\t{written}\t0\nunkept\t{path}\ttoo-large\n"
        )?,
        ["link", path, to] => format!(in alloc;
            "link\t{path}\t777\t0\t0\t1\t6\t1\t0\t1\t0\t1\t0\ntarget\t{path}\t{to}\n"
        )?,
        ["gone", path] => format!(in alloc; "gone\t{path}\n")?,
        _ => return fail("no such entry"),
    };
    Ok(rows)
}

/// Returns two fields that say what is new, or that nothing is.
fn change_fields(alloc: Global, text: &str) -> Result<String, Fail> {
    if text.is_empty() {
        return Ok(String::from_str(alloc, "same\t")?);
    }
    Ok(format!(in alloc; "new\t{text}")?)
}

/// Returns the fields of variables, by their names and values.
fn vars_fields(alloc: Global, word: &str) -> Result<String, Fail> {
    let mut text = String::new(alloc);
    if word != "-" {
        for part in word.split(";") {
            let Some((name, value)) = part.split_once("=") else {
                return fail("no variable");
            };
            let row = format!(in alloc; "declare -- {name}=\"{value}\"%0A")?;
            text.push_str(row.as_str())?;
        }
    }
    change_fields(alloc, text.as_str())
}

/// Returns the fields of the text of a shell.
fn shell_fields(alloc: Global, word: &str) -> Result<String, Fail> {
    let text = spaced(alloc, word)?;
    change_fields(alloc, text.as_str())
}

/// Returns the row of a line's end, with what is new.
fn end_row(alloc: Global, line: [&str; 5], vars: &str, shell: &str) -> Result<String, Fail> {
    let [name, number, status, at, text] = line;
    let text = spaced(alloc, text)?;
    let text = text.as_str();
    let vars = vars_fields(alloc, vars)?;
    let vars = vars.as_str();
    let shell = shell_fields(alloc, shell)?;
    let shell = shell.as_str();
    Ok(format!(in alloc;
        "record\tend\t{name}\t5\t0\t{at}\t{number}\t{status}\t{status}\tshown\t{text}\t{vars}\t{shell}\n"
    )?)
}

/// Returns the rows of a record or of a note.
fn rows_of(alloc: Global, kept: &mut Contents, words: &[&str]) -> Result<String, Fail> {
    match words {
        ["start", name, at, vars, shell] => {
            let vars = vars_fields(alloc, vars)?;
            let vars = vars.as_str();
            let shell = shell_fields(alloc, shell)?;
            let shell = shell.as_str();
            Ok(format!(in alloc;
                "record\tstart\t{name}\t5\t0\t{at}\t\tpts\t0022\tbob\t\t{vars}\t{shell}\n"
            )?)
        }
        ["begin", name, number, at, text] => {
            let text = spaced(alloc, text)?;
            let text = text.as_str();
            Ok(format!(in alloc; "record\tbegin\t{name}\t5\t0\t{at}\t{number}\tshown\t{text}\n")?)
        }
        ["end", name, number, status, at, text] => {
            end_row(alloc, [name, number, status, at, text], "-", "-")
        }
        ["ends", name, number, status, at, text, vars, shell] => {
            end_row(alloc, [name, number, status, at, text], vars, shell)
        }
        _ => note_rows(alloc, kept, words),
    }
}

/// Returns the rows of a field, and keeps the bytes of its files.
pub fn rows_in(alloc: Global, kept: &mut Contents, field: &str) -> Result<String, Fail> {
    let mut out = String::new(alloc);
    if field == "none" {
        return Ok(out);
    }
    for entry in field.split(", ") {
        let words: Vec<&str> = entry.split(' ').collect(alloc)?;
        let rows = rows_of(alloc, kept, words.as_slice())?;
        out.push_str(rows.as_str())?;
    }
    Ok(out)
}
