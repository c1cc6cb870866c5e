//! The paths that notes name.
ghost use Rattle.std.specs.Prelude.{◌≡◌, IfOk, OnOk, option_map};
ghost use Rattle.std.specs.List.{filter_map, list_any};
ghost use Rattle.std.specs.Option.{option_copied};
ghost use Rattle.retro_tree.specs.Order.{path_eq};
ghost use Rattle.casebook_view.specs.NotePaths.{asked_path, found_nothing, is_about_users};
ghost use Rattle.casebook_view.specs.NotePaths.{named_path, path_written, read_path, write_eq};
ghost use Rattle.casebook_view.specs.NotePaths.{write_in, write_of};
ghost use Rattle.casebook_view.specs.FirstOfEach.{first_of_each, with_found, with_item};

use crate::path_write::{PathWrite, WriteKind};
use retro_tree::{Answer, Ask, Change, Kind, NoMem, Node, Note, Path, Permit};
use std::alloc::Global;

/// Returns the path about which a note asks, or `None` if it asks about none. Whether a file can be
/// written is asked before each write, so that doesn't count if the answer is yes. The password
/// file isn't returned, since no query holds its path.
pub(crate) fn named_path(note: &Note) -> Option<&Path>
    ensures { option_copied result ≡ named_path note.now }
{
    match note {
        Note::Asked(Ask::Kind(path) | Ask::Bytes(path) | Ask::Names(path), _) => Some(path),
        Note::Asked(Ask::CanWrite(_, _), Answer::CanWrite(Permit::Yes)) => None,
        Note::Asked(Ask::CanWrite(path, _), _) => Some(path),
        _ => None,
    }
}

/// Returns whether a note looks up a user, and so asks about the password file.
pub(crate) fn is_about_users(note: &Note) -> bool
    ensures { result ≡ is_about_users note.now }
{
    matches!(note, Note::Asked(Ask::User(_), _))
}

/// Returns a copy of the path about which a note asks, or `None` if it asks about none.
fn asked_path(alloc: Global, note: &Note) -> Result<Option<Path>, NoMem>
    ensures { IfOk result (λ found. found ≡ asked_path note.now) }
{
    if is_about_users(note) {
        return Ok(Some(Path::passwd(alloc)?));
    }
    match named_path(note) {
        Some(path) => Ok(Some(path.copy()?)),
        None => Ok(None),
    }
}

/// Returns whether a note found nothing.
fn found_nothing(note: &Note) -> bool
    ensures { result ≡ found_nothing note.now }
{
    matches!(
        note,
        Note::Asked(
            _,
            Answer::Kind(Kind::Missing) | Answer::Bytes(Node::Missing) | Answer::Names(None)
        )
    )
}

/// Returns a copy of the path that a note shows to have been read, or `None` if it shows none.
fn read_path(alloc: Global, note: &Note, is_observed: bool) -> Result<Option<Path>, NoMem>
    ensures { IfOk result (λ found. found ≡ read_path is_observed note.now) }
{
    if is_observed && found_nothing(note) {
        return Ok(None);
    }
    asked_path(alloc, note)
}

/// Returns the path to which a note writes, and how, or `None` if it writes to none.
pub fn written_path(note: &Note) -> Option<(WriteKind, &Path)>
    ensures { option_map (λ w. write_of w.0 w.1.now) result ≡ write_in note.now }
{
    match note {
        Note::Made(Change::Put(path, Node::Missing)) => Some((WriteKind::Remove, path)),
        Note::Made(Change::Put(path, _)) => Some((WriteKind::Put, path)),
        Note::Made(Change::Grow(path, _)) => Some((WriteKind::Append, path)),
        _ => None,
    }
}

/// Appends a path, unless it is among the paths.
fn add_path(paths: &mut Vec<Path>, path: Path) -> Result<(), NoMem>
    ensures { OnOk result (paths.new.items ≡ with_item path_eq paths.old.items path) }
{
    if !paths.contains(&path) {
        paths.push(path)?;
    }
    Ok(())
}

/// Appends the path that a note shows to have been read, if it shows one, unless it is among the
/// paths.
fn add_read(
    alloc: Global,
    paths: &mut Vec<Path>,
    note: &Note,
    is_observed: bool,
) -> Result<(), NoMem>
    ensures { OnOk result
        (paths.new.items ≡ with_found path_eq paths.old.items (read_path is_observed note.now)) }
{
    match read_path(alloc, note, is_observed)? {
        Some(path) => add_path(paths, path),
        None => Ok(()),
    }
}

/// Returns whether a write is of this kind and to this path.
fn is_write(write: &PathWrite, kind: WriteKind, path: &Path) -> bool
    ensures { result ≡ write_eq write.now (write_of kind path.now) }
{
    write.kind == kind && write.path == *path
}

/// Returns whether a write of this kind and to this path is among the writes.
fn has_write(writes: &[PathWrite], kind: WriteKind, path: &Path) -> bool
    ensures { result
        ≡ list_any (λ write. write_eq write (write_of kind path.now)) writes.now }
{
    writes.iter().any(|write| is_write(write, kind, path))
}

/// Appends a write, unless it is among the writes.
fn add_copy(writes: &mut Vec<PathWrite>, kind: WriteKind, path: &Path) -> Result<(), NoMem>
    ensures { OnOk result (writes.new.items
        ≡ with_item write_eq writes.old.items (write_of kind path.now)) }
{
    if has_write(writes.as_slice(), kind, path) {
        return Ok(());
    }
    let path = path.copy()?;
    writes.push(PathWrite { kind, path })?;
    Ok(())
}

/// Appends the write that a note is, if it is one, unless it is among the writes.
fn add_write(writes: &mut Vec<PathWrite>, note: &Note) -> Result<(), NoMem>
    ensures { OnOk result
        (writes.new.items ≡ with_found write_eq writes.old.items (write_in note.now)) }
{
    match written_path(note) {
        Some((kind, path)) => add_copy(writes, kind, path),
        None => Ok(()),
    }
}

/// Appends the path to which a note writes, if it is a write, unless it is among the paths.
fn add_written(paths: &mut Vec<Path>, note: &Note) -> Result<(), NoMem>
    ensures { OnOk result
        (paths.new.items ≡ with_found path_eq paths.old.items (path_written note.now)) }
{
    match written_path(note) {
        Some((_kind, path)) => add_path(paths, path.copy()?),
        None => Ok(()),
    }
}

/// Returns the paths that notes show to have been read, each once, in the order in which they first
/// occur. The notes of an observed line say where it may have looked, so they show only paths at
/// which something was. Takes time in proportion to the number of notes times the number of paths.
pub fn read_paths(alloc: Global, notes: &[Note], is_observed: bool) -> Result<Vec<Path>, NoMem>
    ensures { IfOk result (λ paths.
        paths.items ≡ first_of_each path_eq (filter_map (read_path is_observed) notes.now)) }
{
    let mut paths = Vec::new(alloc);
    for note in notes {
        add_read(alloc, &mut paths, note, is_observed)?;
    }
    Ok(paths)
}

/// Returns the writes of notes to paths, each kind of write to a path once, in the order in which
/// they first occur. Takes time in proportion to the number of notes times the number of writes.
pub fn writes_of(alloc: Global, notes: &[Note]) -> Result<Vec<PathWrite>, NoMem>
    ensures { IfOk result (λ writes.
        writes.items ≡ first_of_each write_eq (filter_map write_in notes.now)) }
{
    let mut writes = Vec::new(alloc);
    for note in notes {
        add_write(&mut writes, note)?;
    }
    Ok(writes)
}

/// Returns the paths to which notes write, each once, in the order in which they first occur. Takes
/// time in proportion to the number of notes times the number of paths.
pub fn written_paths(alloc: Global, notes: &[Note]) -> Result<Vec<Path>, NoMem>
    ensures { IfOk result (λ paths.
        paths.items ≡ first_of_each path_eq (filter_map path_written notes.now)) }
{
    let mut paths = Vec::new(alloc);
    for note in notes {
        add_written(&mut paths, note)?;
    }
    Ok(paths)
}
