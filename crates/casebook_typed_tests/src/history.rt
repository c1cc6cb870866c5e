//! Histories, read from texts.
//!
//! A field has entries that `, ` separates. `none` has no entries.
//!
//! - `file /f 5 6` is a file that was written at second 5 and read at second 6, and `dir /d 6` a
//!   directory that was listed then. `gone /f`, `target /f to` and `looked /f 6` are such notes.
//! - `start B A` is the start of session B from session A, or from none if that is `-`.
//!   `begin A 1 text` and `end A 1 text` are those of a line, which is hidden if its text is `-`.
//!   `exit A` is the end of a session.
use retro_rows::fail;
use std::alloc::Global;
use std::test::Fail;

/// Returns a text, or nothing in place of `-`.
fn or_empty(text: &str) -> &str {
    if text == "-" { "" } else { text }
}

/// Returns the word of a text that is shown or hidden.
fn shown(text: &str) -> &'static str {
    if text == "-" { "hidden" } else { "shown" }
}

/// Returns the row of a note.
fn note_row(alloc: Global, words: &[&str]) -> Result<String, Fail> {
    let row = match words {
        ["file", path, written, read] => format!(in alloc;
            "file\t{path}\t644\t0\t0\t1\t7\t{read}\t0\t{written}\t0\t{written}\t0\n"
        )?,
        ["dir", path, read] => format!(in alloc;
            "dir\t{path}\t755\t0\t0\t1\t8\t{read}\t0\t0\t0\t0\t0\n"
        )?,
        ["gone", path] => format!(in alloc; "gone\t{path}\n")?,
        ["target", path, to] => format!(in alloc; "target\t{path}\t{to}\n")?,
        ["looked", path, read] => format!(in alloc; "looked\t{path}\t{read}\t0\n")?,
        _ => return fail("no such entry"),
    };
    Ok(row)
}

/// Returns the row of a record or of a note.
fn row(alloc: Global, words: &[&str]) -> Result<String, Fail> {
    let row = match words {
        ["start", name, parent] => {
            let parent = or_empty(parent);
            format!(in alloc;
                "record\tstart\t{name}\t5\t0\t/\t{parent}\tpts\t0022\tbob\t\tsame\t\tsame\t\n"
            )?
        }
        ["begin", name, number, line] => {
            let word = shown(line);
            let line = or_empty(line);
            format!(in alloc; "record\tbegin\t{name}\t5\t0\t/\t{number}\t{word}\t{line}\n")?
        }
        ["end", name, number, line] => {
            let word = shown(line);
            let line = or_empty(line);
            format!(in alloc;
                "record\tend\t{name}\t5\t0\t/\t{number}\t0\t0\t{word}\t{line}\tsame\t\tsame\t\n"
            )?
        }
        ["exit", name] => format!(in alloc; "record\texit\t{name}\t5\t0\t/\t0\t0\n")?,
        _ => return note_row(alloc, words),
    };
    Ok(row)
}

/// Appends the rows of a field, and returns how many there are.
pub fn push_rows(alloc: Global, out: &mut String, field: &str) -> Result<usize, Fail> {
    if field == "none" {
        return Ok(0);
    }
    let mut count = 0;
    for entry in field.split(", ") {
        let words: Vec<&str> = entry.split(' ').collect(alloc)?;
        let row = row(alloc, words.as_slice())?;
        out.push_str(row.as_str())?;
        count = usize::saturating_add(count, 1);
    }
    Ok(count)
}
