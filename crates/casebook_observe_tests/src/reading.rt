//! The calls of rows that read the files of a spool.
use crate::texts::{item_text, list_or_nothing, note_text, push_item};
use casebook_spool::{Item, LinesError, read_lines, read_listing};
use retro_rows::{fail, text};
use std::alloc::Global;
use std::test::Fail;

/// The row of a record, with its newline.
const RECORD: &str = "record\texit\ts\t5\t0\t/\t7\t0\n";

/// Returns what bytes say as a listing.
fn listed_text(alloc: Global, bytes: &[u8]) -> Result<String, Fail> {
    let Some(listing) = read_listing(alloc, bytes)? else {
        return Ok(text(alloc, "none")?);
    };
    let mut notes = String::new(alloc);
    for note in listing.notes() {
        push_item(&mut notes, note_text(alloc, note)?.as_str())?;
    }
    let notes = list_or_nothing(alloc, notes)?;
    Ok(format!(in alloc; "at {}: {}", listing.at(), notes.as_str())?)
}

/// Returns what bytes say as the file `lines`, or which row is damaged.
fn lines_text(alloc: Global, bytes: &[u8]) -> Result<String, Fail> {
    let lines = match read_lines(alloc, bytes) {
        Ok(lines) => lines,
        Err(error) => return Ok(format!(in alloc; "{error}")?),
    };
    let mut items = String::new(alloc);
    for item in lines.items() {
        push_item(&mut items, item_text(alloc, item)?.as_str())?;
    }
    let items = list_or_nothing(alloc, items)?;
    Ok(format!(in alloc; "{}; {} whole", items.as_str(), lines.whole())?)
}

/// Returns what a text says as a listing.
pub fn listed(alloc: Global, text: &str) -> Result<String, Fail> {
    listed_text(alloc, text.as_bytes())
}

/// Returns what a text says as the file `lines`.
pub fn lines(alloc: Global, text: &str) -> Result<String, Fail> {
    lines_text(alloc, text.as_bytes())
}

/// Returns the only note of a listing, or `None` if it can't be read.
fn note_listed(alloc: Global, row: &[u8]) -> Result<Option<String>, Fail> {
    let mut file = Vec::new(alloc);
    file.extend_from_slice(b"listing\t0\t1\n".as_slice())?;
    file.extend_from_slice(row)?;
    file.push(b'\n')?;
    let Some(listing) = read_listing(alloc, file.as_slice())? else {
        return Ok(None);
    };
    match listing.notes() {
        [note] => Ok(Some(note_text(alloc, note)?)),
        _ => fail("not one note"),
    }
}

/// Returns the note before a record in the file `lines`, or `None` if it is damaged.
fn note_in_lines(alloc: Global, row: &[u8]) -> Result<Option<String>, Fail> {
    let mut file = Vec::new(alloc);
    file.extend_from_slice(row)?;
    file.push(b'\n')?;
    file.extend_from_slice(RECORD.as_bytes())?;
    let lines = match read_lines(alloc, file.as_slice()) {
        Ok(lines) => lines,
        Err(LinesError::Row(1)) => return Ok(None),
        Err(_) => return fail("another error"),
    };
    if lines.whole() != file.len() {
        return fail("not all is whole");
    }
    match lines.items() {
        [Item::Note(note), Item::Record(_)] => Ok(Some(note_text(alloc, note)?)),
        _ => fail("not a note and a record"),
    }
}

/// Returns the note that a row is, or `wrong`. Fails unless it is the same in a listing and in the
/// file `lines`.
fn note_of(alloc: Global, row: &[u8]) -> Result<String, Fail> {
    match (note_listed(alloc, row)?, note_in_lines(alloc, row)?) {
        (Some(listed), Some(noted)) => {
            if listed.as_str() == noted.as_str() {
                Ok(listed)
            } else {
                fail("two different notes")
            }
        }
        (None, None) => Ok(text(alloc, "wrong")?),
        _ => fail("a note in one of two files"),
    }
}

/// Returns the note that a row is.
pub fn note(alloc: Global, row: &str) -> Result<String, Fail> {
    note_of(alloc, row.as_bytes())
}

/// Returns the note that a row is with bytes at its end, which are given by hexadecimal digits.
pub fn raw(alloc: Global, row: &str, digits: &str) -> Result<String, Fail> {
    let mut bytes = hex::decode(alloc, digits)?;
    let mut whole = Vec::new(alloc);
    whole.extend_from_slice(row.as_bytes())?;
    whole.append(&mut bytes)?;
    note_of(alloc, whole.as_slice())
}

/// Appends a field, after a tab if it isn't the first one.
fn push_field(row: &mut String, index: usize, field: &str) -> Result<(), Fail> {
    if index > 0 {
        row.push('\t')?;
    }
    row.push_str(field)?;
    Ok(())
}

/// Returns the note that a row is, with another field at a place. The first place, 0, is the word.
pub fn with(alloc: Global, row: &str, place: &str, new: &str) -> Result<String, Fail> {
    let place: usize = place.parse()?;
    let mut other = String::new(alloc);
    for (index, field) in row.split('\t').enumerate() {
        push_field(&mut other, index, if index == place { new } else { field })?;
    }
    note(alloc, &other)
}

/// Returns the note that so many fields of a row are, the word being the first one.
pub fn first(alloc: Global, row: &str, count: &str) -> Result<String, Fail> {
    let count: usize = count.parse()?;
    let mut front = String::new(alloc);
    for (index, field) in row.split('\t').enumerate() {
        if index < count {
            push_field(&mut front, index, field)?;
        }
    }
    note(alloc, &front)
}

/// Returns the note that a row and one more field are.
pub fn more(alloc: Global, row: &str, last: &str) -> Result<String, Fail> {
    note(alloc, format!(in alloc; "{row}\t{last}")?.as_str())
}

/// Cuts the file `lines` off at each byte of its end. Returns how many cuts there are that leave
/// just what was before it, and what all says. Fails at any other cut.
pub fn cut(alloc: Global, earlier: &str, end: &str) -> Result<String, Fail> {
    let before = lines(alloc, earlier)?;
    let mut front = Vec::new(alloc);
    front.extend_from_slice(earlier.as_bytes())?;
    let mut cuts: u32 = 0;
    for byte in end.as_bytes() {
        if lines_text(alloc, front.as_slice())?.as_str() != before.as_str() {
            return fail("a cut leaves something else");
        }
        cuts = cuts.saturating_add(1);
        front.push(*byte)?;
    }
    let all = lines_text(alloc, front.as_slice())?;
    Ok(format!(in alloc; "{cuts} cuts; {}", all.as_str())?)
}

/// Cuts a listing off at each byte. Returns how many cuts there are that leave none, and what all
/// says. Fails at any other cut.
pub fn cut_listing(alloc: Global, text: &str) -> Result<String, Fail> {
    let mut front = Vec::new(alloc);
    let mut cuts: u32 = 0;
    for byte in text.as_bytes() {
        if listed_text(alloc, front.as_slice())?.as_str() != "none" {
            return fail("a cut leaves a listing");
        }
        cuts = cuts.saturating_add(1);
        front.push(*byte)?;
    }
    let all = listed_text(alloc, front.as_slice())?;
    Ok(format!(in alloc; "{cuts} cuts; {}", all.as_str())?)
}
