//! Reads rows: notes and records.
ghost use Rattle.std.specs.Prelude.{◌≡◌, IfOk, Some, map};
ghost use Rattle.casebook_rows.specs.Reading.{text_of};
ghost use Rattle.casebook_spool.specs.Reading.{attributes_of, holds, item_of, kept_of, note_at};
ghost use Rattle.casebook_spool.specs.Reading.{note_of, record_of, seen, sight_of, time_of};
ghost use Rattle.casebook_spool.specs.Reading.{times_of, unkept_of};
ghost use Rattle.casebook_spool.specs.inner.Faults.{ReadsRow};

use crate::NoMem;
use crate::content::{Content, Unkept};
use crate::digest::Digest;
use crate::item::Item;
use crate::note::{Holds, Looked, Note};
use crate::row_fault::{RowFault, or_wrong};
use crate::word::Word;
use casebook_folder::Attributes;
use casebook_record::{Record, record_in};
use casebook_rows::{digest_of, number_of, octal_of, path_of, short_number_of, signed_of, text_of};
use casebook_watch::{FileTime, Kind, Sight, SightChange};
use retro_path::{Bytes, Path};
use std::alloc::Global;

/// Reads a time: its second and its nanosecond.
fn time_of(second: &[u8], nanosecond: &[u8]) -> Option<FileTime>
    ensures { result ≡ time_of second.now nanosecond.now }
{
    let second = signed_of(second)?;
    let nanosecond = short_number_of(nanosecond)?;
    Some(FileTime { second, nanosecond })
}

/// Reads a mode, an owner and a group.
fn attributes_of(mode: &[u8], user: &[u8], group: &[u8]) -> Option<Attributes>
    ensures { result ≡ attributes_of mode.now user.now group.now }
{
    let mode = octal_of(mode)?;
    let uid = short_number_of(user)?;
    let gid = short_number_of(group)?;
    Some(Attributes { mode, uid, gid })
}

/// Reads when something was read, written and changed.
#[tactic(auto, unfolding(crate::specs::Reading::times_of))]
fn times_of(fields: &[&[u8]]) -> Option<(FileTime, FileTime, FileTime)>
    ensures { result ≡ times_of (map (λ field. field.now) fields.now) }
{
    let [rs, rn, ws, wn, cs, cn] = fields else {
        return None;
    };
    let read = time_of(rs, rn)?;
    let written = time_of(ws, wn)?;
    let changed = time_of(cs, cn)?;
    Some((read, written, changed))
}

/// Reads what a look saw at a path, from the fields after the path.
#[tactic(auto, unfolding(crate::specs::Reading::sight_of))]
fn sight_of(kind: Kind, fields: &[&[u8]]) -> Option<Sight>
    ensures { result ≡ sight_of kind (map (λ field. field.now) fields.now) }
{
    let [mode, user, group, size, number, times @ ..] = fields else {
        return None;
    };
    let attributes = attributes_of(mode, user, group)?;
    let size = number_of(size)?;
    let number = number_of(number)?;
    let (read, written, changed) = times_of(times)?;
    Some(Sight {
        kind,
        size,
        number,
        attributes,
        read,
        written,
        changed,
    })
}

/// Reads why bytes aren't kept.
#[tactic(auto, unfolding(crate::specs::Reading::unkept_of))]
fn unkept_of(field: &[u8]) -> Option<Unkept>
    ensures { result ≡ unkept_of field.now }
{
    if field == b"too-large".as_slice() {
        Some(Unkept::TooLarge)
    } else if field == b"unreadable".as_slice() {
        Some(Unkept::Unreadable)
    } else if field == b"changing".as_slice() {
        Some(Unkept::Changing)
    } else {
        None
    }
}

/// Reads the digest under which bytes are kept.
fn kept_of(field: &[u8]) -> Option<Content>
    ensures { result ≡ kept_of field.now }
{
    let bytes = digest_of(field)?;
    Some(Content::Kept(Digest { bytes }))
}

/// Returns the note that a path holds this.
fn holds(path: Path, content: Content) -> Note
    ensures { Some result ≡ holds path (Some content) }
{
    Note::Holds(Holds { path, content })
}

/// Returns the note that a path has this sight.
fn seen(path: Path, sight: Option<Sight>) -> Note
    ensures { result ≡ seen path sight }
{
    Note::Sight(SightChange { path, sight })
}

/// Reads the note of a path, by its word and the fields after the path.
#[tactic(auto, unfolding(crate::specs::Reading::note_at))]
fn note_at(alloc: Global, word: Word, path: Path, fields: &[&[u8]]) -> Result<Note, RowFault>
    ensures { ReadsRow result (note_at word path (map (λ field. field.now) fields.now)) }
{
    match (word, fields) {
        (Word::Seen(kind), fields) => Ok(seen(path, Some(or_wrong(sight_of(kind, fields))?))),
        (Word::Gone, []) => Ok(seen(path, None)),
        (Word::Bytes, [hex]) => Ok(holds(path, or_wrong(kept_of(hex))?)),
        (Word::Target, [text]) => {
            let target = Bytes::of(text_of(alloc, text)?);
            Ok(holds(path, Content::Target(target)))
        }
        (Word::Unkept, [why]) => {
            let why = or_wrong(unkept_of(why))?;
            Ok(holds(path, Content::Unkept(why)))
        }
        (Word::Looked, [second, nanosecond]) => {
            let read = or_wrong(time_of(second, nanosecond))?;
            Ok(Note::Looked(Looked { path, read }))
        }
        _ => Err(RowFault::Wrong),
    }
}

/// Reads the note that a row is.
#[tactic(auto, unfolding(crate::specs::Reading::note_of))]
pub(crate) fn note_of(alloc: Global, fields: &[&[u8]]) -> Result<Note, RowFault>
    ensures { ReadsRow result (note_of (map (λ field. field.now) fields.now)) }
{
    let [word, path, fields @ ..] = fields else {
        return Err(RowFault::Wrong);
    };
    let word = or_wrong(Word::of(word))?;
    let path = or_wrong(path_of(alloc, path)?)?;
    note_at(alloc, word, path, fields)
}

/// Returns the texts of fields.
fn texts_of(alloc: Global, fields: &[&[u8]]) -> Result<Vec<Vec<u8>>, NoMem>
    ensures { IfOk result (λ texts. map (λ text. text.items) texts.items
        ≡ map text_of (map (λ field. field.now) fields.now)) }
{
    let mut texts = Vec::new(alloc);
    for field in fields {
        texts.push(text_of(alloc, field)?)?;
    }
    Ok(texts)
}

/// Returns texts as slices.
fn slices_of(alloc: Global, texts: &[Vec<u8>]) -> Result<Vec<&[u8]>, NoMem>
    ensures { IfOk result (λ slices. map (λ slice. slice.now) slices.items
        ≡ map (λ text. text.items) texts.now) }
{
    let mut slices = Vec::with_capacity(alloc, texts.len())?;
    for text in texts {
        slices.push(text.as_slice())?;
    }
    Ok(slices)
}

/// Reads the record of fields.
fn record_of(alloc: Global, fields: &[&[u8]]) -> Result<Record, RowFault>
    ensures { ReadsRow result (record_of (map (λ field. field.now) fields.now)) }
{
    let texts = texts_of(alloc, fields)?;
    let texts = slices_of(alloc, texts.as_slice())?;
    match record_in(alloc, texts.as_slice()) {
        Ok(record) => Ok(record),
        Err(error) => Err(RowFault::of(error)),
    }
}

/// Reads a row of the file `lines`.
#[tactic(auto, unfolding(crate::specs::Reading::item_of))]
pub(crate) fn item_of(alloc: Global, fields: &[&[u8]]) -> Result<Item, RowFault>
    ensures { ReadsRow result (item_of (map (λ field. field.now) fields.now)) }
{
    let [word, own @ ..] = fields else {
        return Err(RowFault::Wrong);
    };
    if *word == b"record".as_slice() {
        Ok(Item::Record(record_of(alloc, own)?))
    } else {
        Ok(Item::Note(note_of(alloc, fields)?))
    }
}
