//! What is to be restored, path by path.
ghost use Rattle.std.specs.Prelude.{◌≡◌, IfOk};
ghost use Rattle.std.specs.Option.{option_copied};
ghost use Rattle.casebook_words.specs.FileLines.{lines_at};
ghost use Rattle.casebook_summary.specs.Restorations.{AreCounts, AreRestorations, IsExtent, IsWriter};
ghost use Rattle.casebook_summary.specs.Restorations.{is_unkept, kept_kind, kind_of, lone_file};
ghost use Rattle.casebook_summary.specs.inner.Found.{AreFound, IsFound};

use crate::NoMem;
use crate::doubt::written_paths;
use crate::path_set::PathSet;
use casebook_changes::{ChangedPath, PathChange, changed_paths};
use casebook_opaque::is_opaque;
use casebook_view::{Case, UnknownLine};
use casebook_words::{FileLines, count_added, count_removed};
use retro_tree::{Ask, Bytes, Entry, Path, Tree};
use std::alloc::Global;

/// How many lines are in one of two texts alone.
#[derive(Clone, Copy, Debug, PartialEq, Eq)]
pub struct LineCounts {
    /// How many are in the new text alone.
    pub added: usize,
    /// How many are in the old text alone.
    pub removed: usize,
}

/// How much is to be restored at a path.
#[derive(Clone, Copy, Debug, PartialEq, Eq)]
pub enum Extent {
    /// A directory comes or goes.
    Directory,
    /// An empty file comes or goes.
    EmptyFile,
    /// A file becomes a directory.
    ToDirectory,
    /// A directory becomes a file.
    ToFile,
    /// A link, a device or a file comes, goes or changes that isn't kept. A text stands for it.
    NotKept,
    /// Lines come or go. A missing file has no lines.
    Lines(LineCounts),
}

/// What is to be restored at a path.
#[derive(Drop)]
pub struct Restoration {
    /// The path.
    pub path: Path,
    /// How the path differs.
    pub change: PathChange,
    /// How much of it.
    pub extent: Extent,
    /// Whether a line wrote to the path that isn't understood or has to be run for real, as it was
    /// recorded or in the repaired recording.
    pub is_doubtful: bool,
    /// The last line that writes differently to the path in the repaired recording, if there is one.
    pub writer: Option<u32>,
}

/// Returns how many lines at a path are in one of two trees alone.
fn count_lines(alloc: Global, before: &Tree, after: &Tree, path: &Path) -> Result<LineCounts, NoMem>
    ensures { IfOk result (AreCounts (lines_at path.now before.now) (lines_at path.now after.now)) }
{
    let lines = FileLines::of(alloc, before, after, path)?;
    let merged = lines.merged(alloc)?;
    Ok(LineCounts {
        added: count_added(merged.as_slice()),
        removed: count_removed(merged.as_slice()),
    })
}

/// Returns the extent of a file that comes or goes, if the file is empty.
fn lone_file(bytes: &Bytes) -> Option<Extent>
    ensures { result ≡ lone_file bytes.now }
{
    if bytes.is_empty() {
        Some(Extent::EmptyFile)
    } else {
        None
    }
}

/// Returns whether there is a file that stands for what isn't kept.
fn is_unkept(entry: Option<&Entry>) -> bool
    ensures { result ≡ is_unkept (option_copied entry.entry) }
{
    match entry {
        Some(Entry::File(bytes)) => is_opaque(bytes.as_slice()),
        _ => false,
    }
}

/// Returns what comes, goes or changes at a path at which all is kept, or `None` if that is lines of
/// a file.
fn kept_kind(before: Option<&Entry>, after: Option<&Entry>) -> Option<Extent>
    ensures { result ≡ kept_kind (option_copied before.entry) (option_copied after.entry) }
{
    match (before, after) {
        (Some(Entry::Dir), None) => Some(Extent::Directory),
        (None, Some(Entry::Dir)) => Some(Extent::Directory),
        (Some(Entry::File(bytes)), None) => lone_file(bytes),
        (None, Some(Entry::File(bytes))) => lone_file(bytes),
        (Some(Entry::Dir), Some(Entry::File(_))) => Some(Extent::ToFile),
        (Some(Entry::File(_)), Some(Entry::Dir)) => Some(Extent::ToDirectory),
        _ => None,
    }
}

/// Returns what comes, goes or changes at a path, or `None` if that is lines of a file.
fn kind_of(before: Option<&Entry>, after: Option<&Entry>) -> Option<Extent>
    ensures { result ≡ kind_of (option_copied before.entry) (option_copied after.entry) }
{
    if is_unkept(before) || is_unkept(after) {
        return Some(Extent::NotKept);
    }
    kept_kind(before, after)
}

/// Returns how much is to be restored of a path.
fn extent_of(alloc: Global, before: &Tree, after: &Tree, path: &Path) -> Result<Extent, NoMem>
    ensures { IfOk result (IsExtent before.now after.now path.now) }
{
    match kind_of(before.get(path), after.get(path)) {
        Some(extent) => Ok(extent),
        None => {
            let counts = count_lines(alloc, before, after, path)?;
            Ok(Extent::Lines(counts))
        }
    }
}

/// Returns the last line that writes differently to a path in the repaired recording.
fn writer_of(alloc: Global, case: &Case<'_>, path: &Path) -> Result<Option<u32>, NoMem>
    ensures { IfOk result (IsWriter case.now.recording case.now.repair path.now) }
{
    let ask = Ask::Bytes(path.copy()?);
    case.cause_of(alloc, u32::MAX, &ask)
}

/// Returns what is to be restored at a path.
fn restoration_of(
    alloc: Global,
    case: &Case<'_>,
    written: &PathSet,
    changed: &ChangedPath,
) -> Result<Restoration, NoMem>
    ensures { IfOk result
        (IsFound case.now.recording case.now.repair written.now.paths.keys changed.now) }
{
    let before = case.recording().last().tree();
    let after = case.repair().state().tree();
    Ok(Restoration {
        path: changed.path.copy()?,
        change: changed.change,
        extent: extent_of(alloc, before, after, &changed.path)?,
        is_doubtful: written.contains(&changed.path),
        writer: writer_of(alloc, case, &changed.path)?,
    })
}

/// Returns what is to be restored at each of some paths. `written` are the doubtful ones.
fn restorations_at(
    alloc: Global,
    case: &Case<'_>,
    written: &PathSet,
    changed: &[ChangedPath],
) -> Result<Vec<Restoration>, NoMem>
    ensures { IfOk result (λ found. AreFound case.now.recording case.now.repair
        written.now.paths.keys changed.now found.items) }
{
    let mut found = Vec::new(alloc);
    for path in changed {
        found.push(restoration_of(alloc, case, written, path)?)?;
    }
    Ok(found)
}

/// Returns what is to be restored at each of the paths in which the recorded and the repaired
/// machine differ at the end, in order. The lines of each file are compared.
pub fn restorations(
    alloc: Global,
    case: &Case<'_>,
    unknown: &[UnknownLine],
) -> Result<Vec<Restoration>, NoMem>
    ensures { IfOk result (λ found. AreRestorations
        case.now.recording case.now.repair unknown.now found.items) }
{
    let before = case.recording().last().tree();
    let after = case.repair().state().tree();
    let written = written_paths(alloc, case, unknown)?;
    let changed = changed_paths(alloc, before, after)?;
    restorations_at(alloc, case, &written, changed.as_slice())
}
