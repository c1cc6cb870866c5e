//! Writes notes and records as rows.
ghost use Rattle.std.specs.Prelude.{◌≡◌, ◌++◌, IfOk, OnOk, Some, map, string_bytes};
ghost use Rattle.casebook_rows.specs.Rows.{tabbed};
ghost use Rattle.casebook_rows.specs.Written.{escaped};
ghost use Rattle.casebook_spool.specs.Words.{kind_word, unkept_word};
ghost use Rattle.casebook_spool.specs.Written.{attributes_fields, content_row, listing_row};
ghost use Rattle.casebook_spool.specs.Written.{listing_text, note_row, times_fields};
ghost use Rattle.casebook_spool.specs.Written.{notes_text, observation_text, record_row, row_line};
ghost use Rattle.casebook_spool.specs.Written.{row_words, sight_fields, sight_row, sights_notes};
ghost use Rattle.casebook_spool.specs.Written.{time_fields};

use crate::NoMem;
use crate::content::{Content, Unkept};
use crate::note::{Holds, Note};
use casebook_folder::Attributes;
use casebook_rows::{push_digest, push_number, push_octal, push_path, push_signed, push_text};
use casebook_watch::{FileTime, Kind, Sight, SightChange, Sights};
use retro_path::Path;
use std::alloc::Global;

/// Returns the word of a path at which something of this kind is.
fn kind_word(kind: Kind) -> &'static str
    ensures { result.now ≡ kind_word kind }
{
    match kind {
        Kind::Dir => "dir",
        Kind::File => "file",
        Kind::Link => "link",
        Kind::Other => "other",
    }
}

/// Returns why bytes aren't kept.
fn unkept_word(why: Unkept) -> &'static str
    ensures { result.now ≡ unkept_word why }
{
    match why {
        Unkept::TooLarge => "too-large",
        Unkept::Unreadable => "unreadable",
        Unkept::Changing => "changing",
    }
}

/// Appends a time: its second and its nanosecond.
fn push_time(row: &mut String, time: FileTime) -> Result<(), NoMem>
    ensures { OnOk result (string_bytes row.new
        ≡ string_bytes row.old ++ tabbed (time_fields time)) }
{
    push_signed(row, time.second)?;
    push_number(row, u64::from(time.nanosecond))
}

/// Appends a mode, an owner and a group.
fn push_attributes(alloc: Global, row: &mut String, attributes: Attributes) -> Result<(), NoMem>
    ensures { OnOk result (string_bytes row.new
        ≡ string_bytes row.old ++ tabbed (attributes_fields attributes)) }
{
    push_octal(alloc, row, attributes.mode)?;
    push_number(row, u64::from(attributes.uid))?;
    push_number(row, u64::from(attributes.gid))
}

/// Appends when something was read, written and changed.
fn push_times(row: &mut String, sight: &Sight) -> Result<(), NoMem>
    ensures { OnOk result (string_bytes row.new
        ≡ string_bytes row.old ++ tabbed (times_fields sight.now)) }
{
    push_time(row, sight.read)?;
    push_time(row, sight.written)?;
    push_time(row, sight.changed)
}

/// Appends what a look saw at a path.
fn push_sight(alloc: Global, row: &mut String, sight: &Sight) -> Result<(), NoMem>
    ensures { OnOk result (string_bytes row.new
        ≡ string_bytes row.old ++ tabbed (sight_fields sight.now)) }
{
    push_attributes(alloc, row, sight.attributes)?;
    push_number(row, sight.size)?;
    push_number(row, sight.number)?;
    push_times(row, sight)
}

/// Appends the row of what is at a path, without its newline.
fn push_seen(alloc: Global, row: &mut String, path: &Path, sight: &Sight) -> Result<(), NoMem>
    ensures { OnOk result (string_bytes row.new
        ≡ string_bytes row.old ++ row_words (sight_row path.now (Some sight.now))) }
{
    row.push_str(kind_word(sight.kind))?;
    push_path(row, path)?;
    push_sight(alloc, row, sight)
}

/// Appends the row of a sight, without its newline.
fn push_change(alloc: Global, row: &mut String, change: &SightChange) -> Result<(), NoMem>
    ensures { OnOk result (string_bytes row.new
        ≡ string_bytes row.old ++ row_words (sight_row change.now.path change.now.sight)) }
{
    match &change.sight {
        Some(sight) => push_seen(alloc, row, &change.path, sight),
        None => {
            row.push_str("gone")?;
            push_path(row, &change.path)
        }
    }
}

/// Appends the row of a content, without its newline.
fn push_holds(alloc: Global, row: &mut String, holds: &Holds) -> Result<(), NoMem>
    ensures { OnOk result (string_bytes row.new
        ≡ string_bytes row.old ++ row_words (content_row holds.now.path holds.now.content)) }
{
    match &holds.content {
        Content::Kept(digest) => {
            row.push_str("bytes")?;
            push_path(row, &holds.path)?;
            push_digest(alloc, row, &digest.bytes)
        }
        Content::Target(target) => {
            row.push_str("target")?;
            push_path(row, &holds.path)?;
            push_text(row, target.as_slice())
        }
        Content::Unkept(why) => {
            row.push_str("unkept")?;
            push_path(row, &holds.path)?;
            push_text(row, unkept_word(*why).as_bytes())
        }
    }
}

/// Appends the row of a note.
pub(crate) fn push_note(alloc: Global, text: &mut String, note: &Note) -> Result<(), NoMem>
    ensures { OnOk result (string_bytes text.new
        ≡ string_bytes text.old ++ row_line (note_row note.now)) }
{
    match note {
        Note::Sight(change) => push_change(alloc, text, change)?,
        Note::Holds(holds) => push_holds(alloc, text, holds)?,
        Note::Looked(looked) => {
            text.push_str("looked")?;
            push_path(text, &looked.path)?;
            push_time(text, looked.read)?;
        }
    }
    text.push('\n')
}

/// Appends a row for each note.
pub(crate) fn push_notes(alloc: Global, text: &mut String, notes: &[Note]) -> Result<(), NoMem>
    ensures { OnOk result (string_bytes text.new
        ≡ string_bytes text.old ++ notes_text notes.now) }
{
    for note in notes {
        push_note(alloc, text, note)?;
    }
    Ok(())
}

/// Appends fields as texts.
fn push_texts(row: &mut String, fields: &[&[u8]]) -> Result<(), NoMem>
    ensures { OnOk result (string_bytes row.new
        ≡ string_bytes row.old ++ tabbed (map escaped (map (λ field. field.now) fields.now))) }
{
    for field in fields {
        push_text(row, field)?;
    }
    Ok(())
}

/// Returns the rows of notes, and of the record to which they belong, by its fields.
pub fn observation_text(alloc: Global, notes: &[Note], fields: &[&[u8]]) -> Result<String, NoMem>
    ensures { IfOk result (λ text. string_bytes text
        ≡ observation_text notes.now (map (λ field. field.now) fields.now)) }
{
    let mut text = String::new(alloc);
    push_notes(alloc, &mut text, notes)?;
    text.push_str("record")?;
    push_texts(&mut text, fields)?;
    text.push('\n')?;
    Ok(text)
}

/// Appends the first row of a listing.
fn push_head(text: &mut String, at: u64, count: usize) -> Result<(), NoMem>
    ensures { OnOk result (string_bytes text.new
        ≡ string_bytes text.old ++ row_line (listing_row at count)) }
{
    text.push_str("listing")?;
    push_number(text, at)?;
    push_number(text, count as u64)?;
    text.push('\n')
}

/// Returns a listing of notes, which goes to a byte of the file `lines`.
pub fn listing_text(alloc: Global, at: u64, notes: &[Note]) -> Result<String, NoMem>
    ensures { IfOk result (λ text. string_bytes text ≡ listing_text at notes.now) }
{
    let mut text = String::new(alloc);
    push_head(&mut text, at, notes.len())?;
    push_notes(alloc, &mut text, notes)?;
    Ok(text)
}

/// Returns a listing of sights, which goes to a byte of the file `lines`.
pub fn sights_text(alloc: Global, at: u64, sights: &Sights) -> Result<String, NoMem>
    ensures { IfOk result (λ text. string_bytes text
        ≡ listing_text at (sights_notes sights.now)) }
{
    let mut text = String::new(alloc);
    push_head(&mut text, at, sights.len())?;
    for (path, sight) in sights.iter() {
        push_seen(alloc, &mut text, path, sight)?;
        text.push('\n')?;
    }
    Ok(text)
}
