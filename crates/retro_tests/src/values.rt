//! Bytes, texts, notes and overlays, by their small calls.
use retro_rows::path;
use retro_tree::{
    Answer, Ask, Bytes, Cell, Change, NoMem, Note, Notes, Overlay, OverlayEntry, Text, Value,
};
use std::alloc::Global;
use std::test::Fail;

/// Returns whether bytes hold what they are made of, and what extends them.
fn bytes_are_kept(alloc: Global) -> Result<bool, NoMem> {
    let mut bytes = Bytes::of(Vec::from_slice(alloc, b"ab")?);
    bytes.extend(b"c")?;
    Ok(
        bytes.len() == 3
            && bytes.copy()? == bytes
            && bytes.into_vec().as_slice() == b"abc".as_slice(),
    )
}

/// Returns whether a text has its bytes.
fn texts_are_kept(alloc: Global) -> Result<bool, NoMem> {
    let text = Text::of(String::from_str(alloc, "é")?);
    Ok(text.copy()?.bytes() == [195, 169].as_slice())
}

/// Returns a query with its answer and a change, in this order.
fn two_notes(alloc: Global, status: u8) -> Result<Notes, NoMem> {
    let mut notes = Vec::new(alloc);
    notes.push(Note::Asked(Ask::StatusOf(7), Answer::Status(1)))?;
    notes.push(Note::Made(Change::SetStatus(7, status)))?;
    Notes::of(alloc, notes)
}

/// Returns whether notes are those that `two_notes` makes with a status, by each note's own
/// comparison.
fn are_two_notes(notes: &[Note], status: u8) -> bool {
    match notes {
        [Note::Asked(ask, answer), Note::Made(change)] => {
            answer.is_same(&Answer::Status(1))
                && !answer.is_same(&Answer::Status(2))
                && !ask.is_same(&Ask::CwdOf(7))
                && change.is_same(&Change::SetStatus(7, status))
        }
        _ => false,
    }
}

/// Returns whether a copy of notes is the same as they are.
fn notes_are_kept(alloc: Global) -> Result<bool, NoMem> {
    let notes = two_notes(alloc, 2)?;
    let copy = notes.copy()?;
    Ok(are_two_notes(copy.as_slice(), 2) && copy.is_same(&notes))
}

/// Returns whether notes with another change differ.
fn notes_differ(alloc: Global) -> Result<bool, NoMem> {
    let notes = two_notes(alloc, 2)?;
    Ok(!notes.is_same(&two_notes(alloc, 3)?))
}

#[test]
fn small_values_are_kept(rt: HostRuntime) -> Result<(), Fail> {
    assert!(rt; bytes_are_kept(rt.alloc())?, "bytes");
    assert!(rt; texts_are_kept(rt.alloc())?, "texts");
    assert!(rt; notes_are_kept(rt.alloc())?, "notes");
    assert!(rt; notes_differ(rt.alloc())?, "other notes");
    Ok(())
}

/// The cell of a session's directory.
const CELL: Cell = Cell::Cwd(7);

/// Returns a directory as that cell's value.
fn directory(alloc: Global, at: &str) -> Result<Value, Fail> {
    Ok(Value::Cwd(path(alloc, at)?))
}

/// Returns whether an entry is a directory.
fn is_directory(entry: &Option<OverlayEntry>) -> bool {
    matches!(entry, Some(OverlayEntry::Value(Value::Cwd(_))))
}

/// Returns whether a value exists and is the same as another one.
fn is_same(value: Option<&Value>, wanted: &Value) -> bool {
    match value {
        Some(value) => value.is_same(wanted),
        None => false,
    }
}

/// Returns whether replacing an entry returns the previous one and leaves the new one alone in its
/// overlay.
fn entries_are_replaced(alloc: Global) -> Result<bool, Fail> {
    let (first, second) = (directory(alloc, "/d")?, directory(alloc, "/e")?);
    let wanted = directory(alloc, "/e")?;
    let mut overlay = Overlay::new(alloc);
    overlay.insert(CELL, first)?;
    let previous = overlay.replace(&CELL, OverlayEntry::Value(second));
    Ok(
        is_directory(&previous)
            && is_same(overlay.get_value(&CELL), &wanted)
            && overlay.len() == 1
            && overlay.get(&Cell::Cwd(8)).is_none(),
    )
}

/// Returns whether an overlay without its entry is empty.
fn entries_are_removed(alloc: Global) -> Result<bool, Fail> {
    let mut overlay = Overlay::new(alloc);
    overlay.insert(CELL, directory(alloc, "/d")?)?;
    let had = !overlay.is_empty();
    overlay.remove(&CELL);
    Ok(had && overlay.is_empty())
}

#[test]
fn overlays_keep_their_entries(rt: HostRuntime) -> Result<(), Fail> {
    assert!(rt; entries_are_replaced(rt.alloc())?, "replaced");
    assert!(rt; entries_are_removed(rt.alloc())?, "removed");
    Ok(())
}
