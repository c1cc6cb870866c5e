//! What is known of modes and owners.
ghost use Rattle.std.specs.Prelude.{◌≡◌, IfOk, OnOk, Some, if◌then◌else◌};
ghost use Rattle.std.specs.BTreeMap.{get_by};
ghost use Rattle.retro_path.specs.Order.{path_cmp, path_eq};
ghost use Rattle.retro_path.specs.Path.{PathValue};
ghost use Rattle.casebook_repairs.specs.Attributes.{AreKnown, AreLastOf, attributes_by, is_kept, is_of};

use crate::NoMem;
use casebook_account::{Machine, SeenAttributes};
use casebook_folder::Attributes;
use casebook_folder_cli::KnownAttributes;
use casebook_watch::Kind;
use retro_keep::Recording;
use retro_path::Path;
use std::alloc::Global;
use std::collections::BTreeMap;

/// Returns the modes and owners that a machine's paths were seen to have; none, if there is no
/// machine.
pub(crate) fn attributes_by(alloc: Global, machine: Option<Machine>) -> Vec<SeenAttributes>
    ensures { result.items ≡ attributes_by machine }
{
    match machine {
        Some(machine) => machine.attributes,
        None => Vec::new(alloc),
    }
}

/// Returns whether a recording has the line after which attributes were seen. It has what was seen
/// before all lines.
fn is_kept(recording: &Recording, seen: &SeenAttributes) -> bool
    ensures { result ≡ is_kept recording.now.lines seen.now }
{
    seen.line == 0 || recording.run_of(seen.line).is_some()
}

/// Returns whether attributes were seen of what is of a kind, after a line that a recording has.
fn is_of(kind: Kind, recording: &Recording, seen: &SeenAttributes) -> bool
    ensures { result ≡ is_of kind recording.now.lines seen.now }
{
    seen.kind == kind && is_kept(recording, seen)
}

/// Notes the attributes of a path in the place of those that were noted before.
fn note(known: &mut BTreeMap<Path, Attributes>, seen: &SeenAttributes) -> Result<(), NoMem>
    ensures { OnOk result ((p : PathValue) → get_by (path_cmp p) known.new
        ≡ (if path_eq seen.now.path p then Some seen.now.attributes
        else get_by (path_cmp p) known.old)) }
{
    known.insert(seen.path.copy()?, seen.attributes)?;
    Ok(())
}

/// Returns the last attributes of each path that were seen of what is of a kind, after lines that a
/// recording has.
fn last_of(
    alloc: Global,
    kind: Kind,
    recording: &Recording,
    seen: &[SeenAttributes],
) -> Result<BTreeMap<Path, Attributes>, NoMem>
    ensures { IfOk result (AreLastOf kind recording.now.lines seen.now) }
{
    let mut known = BTreeMap::new(alloc);
    for one in seen {
        if is_of(kind, recording, one) {
            note(&mut known, one)?;
        }
    }
    Ok(known)
}

/// Returns what is known of modes and owners if only the lines of a recording ran, by what was seen.
pub fn known_attributes(
    alloc: Global,
    recording: &Recording,
    seen: &[SeenAttributes],
) -> Result<KnownAttributes, NoMem>
    ensures { IfOk result (AreKnown recording.now.lines seen.now) }
{
    Ok(KnownAttributes {
        files: last_of(alloc, Kind::File, recording, seen)?,
        dirs: last_of(alloc, Kind::Dir, recording, seen)?,
    })
}
