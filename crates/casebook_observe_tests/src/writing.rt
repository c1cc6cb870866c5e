//! The calls of rows that write notes, records and sights, and that make notes.
//!
//! A field of notes has entries that `, ` separates: `seen` and an entry as `worlds.rt` reads it,
//! `gone`, `kept`, `leads`, `unkept` or `looked`, a path, and what it is about. The field `none`
//! has no notes.
use crate::fields::digest_from;
use crate::worlds::{MemoryWatched, entry_of, time, unkept};
use casebook_spool::{
    Content, Digest, Holds, Looked, Note, after_items, after_notes, listing_text, observation_text,
    read_lines, sights_text,
};
use casebook_watch::SightChange;
use retro_path::Bytes;
use retro_rows::{fail, path};
use std::alloc::Global;
use std::test::Fail;

/// Returns the note of an entry that is seen.
fn seen(alloc: Global, entry: &str) -> Result<Note, Fail> {
    let entry = entry_of(alloc, entry)?;
    Ok(Note::Sight(SightChange {
        path: entry.path.copy()?,
        sight: Some(entry.sight),
    }))
}

/// Returns the note that a path is gone.
fn gone(alloc: Global, name: &str) -> Result<Note, Fail> {
    Ok(Note::Sight(SightChange {
        path: path(alloc, name)?,
        sight: None,
    }))
}

/// Returns the note of what a path holds.
fn holds(alloc: Global, name: &str, content: Content) -> Result<Note, Fail> {
    Ok(Note::Holds(Holds {
        path: path(alloc, name)?,
        content,
    }))
}

/// Returns the content that a digest names.
fn kept(digits: &str) -> Result<Content, Fail> {
    Ok(Content::Kept(Digest {
        bytes: digest_from(digits)?,
    }))
}

/// Returns the content of a link, which is given by hexadecimal digits.
fn target(alloc: Global, digits: &str) -> Result<Content, Fail> {
    Ok(Content::Target(Bytes::of(hex::decode(alloc, digits)?)))
}

/// Returns the note that the recorder read a path itself.
fn looked(alloc: Global, name: &str, read: &str) -> Result<Note, Fail> {
    Ok(Note::Looked(Looked {
        path: path(alloc, name)?,
        read: time(read)?,
    }))
}

/// Reads a note.
fn note_of(alloc: Global, entry: &str) -> Result<Note, Fail> {
    if let Some(entry) = entry.strip_prefix("seen ") {
        return seen(alloc, entry);
    }
    let words: Vec<&str> = entry.split(' ').collect(alloc)?;
    match words.as_slice() {
        ["gone", name] => gone(alloc, name),
        ["kept", name, digits] => holds(alloc, name, kept(digits)?),
        ["leads", name, digits] => holds(alloc, name, target(alloc, digits)?),
        ["unkept", name, why] => holds(alloc, name, Content::Unkept(unkept(why)?)),
        ["looked", name, read] => looked(alloc, name, read),
        _ => fail("no such note"),
    }
}

/// Reads notes.
fn notes_of(alloc: Global, field: &str) -> Result<Vec<Note>, Fail> {
    let mut notes = Vec::new(alloc);
    if field != "none" {
        for entry in field.split(", ") {
            notes.push(note_of(alloc, entry)?)?;
        }
    }
    Ok(notes)
}

/// Returns the rows of notes and of a record, whose fields `|` separates.
pub fn observation(alloc: Global, notes: &str, record: &str) -> Result<String, Fail> {
    let notes = notes_of(alloc, notes)?;
    let mut fields = Vec::new(alloc);
    for field in record.split('|') {
        fields.push(field.as_bytes())?;
    }
    Ok(observation_text(alloc, notes.as_slice(), fields.as_slice())?)
}

/// Returns a listing of notes.
pub fn listing(alloc: Global, at: &str, notes: &str) -> Result<String, Fail> {
    let notes = notes_of(alloc, notes)?;
    Ok(listing_text(alloc, at.parse()?, notes.as_slice())?)
}

/// Returns a listing of sights.
pub fn sights(alloc: Global, at: &str, world: &str) -> Result<String, Fail> {
    let sights = MemoryWatched::of(alloc, world)?.sights(alloc)?;
    Ok(sights_text(alloc, at.parse()?, &sights)?)
}

/// Returns a listing of the sights after notes. Fails unless these are the same after the items of
/// a file that has the notes and a record.
pub fn after(alloc: Global, world: &str, notes: &str) -> Result<String, Fail> {
    let notes = notes_of(alloc, notes)?;
    let world = MemoryWatched::of(alloc, world)?;
    let record = ["exit", "s", "5", "0", "/", "7", "0"].map(|field| field.as_bytes());
    let file = observation_text(alloc, notes.as_slice(), record.as_slice())?;
    let Ok(lines) = read_lines(alloc, file.as_bytes()) else {
        return fail("damaged lines");
    };
    let by_notes = after_notes(world.sights(alloc)?, notes.as_slice())?;
    let by_items = after_items(world.sights(alloc)?, lines.items())?;
    let text = sights_text(alloc, 0, &by_notes)?;
    if sights_text(alloc, 0, &by_items)?.as_str() != text.as_str() {
        return fail("other sights after items");
    }
    Ok(text)
}
