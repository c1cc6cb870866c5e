//! What lines read.
ghost use Rattle.std.specs.Prelude.{◌≡◌, IfOk, OnOk};
ghost use Rattle.std.specs.Option.{option_copied};
ghost use Rattle.casebook_summary.specs.Reads.{path_read, paths_read, with_path};

use crate::NoMem;
use retro_tree::{Answer, Ask, Node, Note, Path};
use std::alloc::Global;
use std::collections::BTreeSet;

/// Returns the path of a file whose bytes a note shows to have been read, or of a directory whose
/// names were.
fn path_read(note: &Note) -> Option<&Path>
    ensures { option_copied result ≡ path_read note.now }
{
    match note {
        Note::Asked(Ask::Bytes(path), Answer::Bytes(Node::File(_))) => Some(path),
        Note::Asked(Ask::Names(path), Answer::Names(Some(_))) => Some(path),
        _ => None,
    }
}

/// Adds the path whose contents a note shows to have been read, if it shows one.
fn add_read(paths: &mut BTreeSet<Path>, note: &Note) -> Result<(), NoMem>
    ensures { OnOk result (paths.new.keys ≡ with_path paths.old.keys (path_read note.now)) }
{
    if let Some(path) = path_read(note) {
        paths.insert(path.copy()?)?;
    }
    Ok(())
}

/// Returns the paths whose contents notes show to have been read, each once, in order: those of
/// files whose bytes were read, and of directories whose names were.
pub fn paths_read(alloc: Global, notes: &[Note]) -> Result<Vec<Path>, NoMem>
    ensures { IfOk result (λ paths. paths.items ≡ paths_read notes.now) }
{
    let mut paths = BTreeSet::new(alloc);
    for note in notes {
        add_read(&mut paths, note)?;
    }
    paths.into_iter().collect(alloc)
}
