//! What is to be restored, as JSON.
ghost use Rattle.std.specs.Prelude.{◌≡◌, IfOk, map};
ghost use Rattle.serde_json.specs.View.{view};
ghost use Rattle.casebook_json.specs.Restore.{added_in, change_name, extent_name, removed_in};
ghost use Rattle.casebook_json.specs.Restore.{doubtful_paths, restoration_data};
ghost use Rattle.casebook_json.specs.Values.{path_data};

use crate::NoMem;
use crate::value::{number_or_null, path_value};
use casebook_changes::PathChange;
use casebook_summary::{Extent, Restoration};
use serde_json::{Value, json};
use std::alloc::Global;

/// Returns the name of a change.
fn change_name(change: PathChange) -> &'static str
    ensures { result.now ≡ change_name change }
{
    match change {
        PathChange::Added => "added",
        PathChange::Removed => "removed",
        PathChange::Modified => "modified",
    }
}

/// Returns the name of an extent.
fn extent_name(extent: Extent) -> &'static str
    ensures { result.now ≡ extent_name extent }
{
    match extent {
        Extent::Directory => "directory",
        Extent::EmptyFile => "empty_file",
        Extent::ToDirectory => "to_directory",
        Extent::ToFile => "to_file",
        Extent::NotKept => "not_kept",
        Extent::Lines(_) => "lines",
    }
}

/// Returns how many lines an extent adds, if it is lines.
fn added_in(extent: Extent) -> Option<u64>
    ensures { result ≡ added_in extent }
{
    match extent {
        Extent::Lines(counts) => Some(counts.added as u64),
        _ => None,
    }
}

/// Returns how many lines an extent removes, if it is lines.
fn removed_in(extent: Extent) -> Option<u64>
    ensures { result ≡ removed_in extent }
{
    match extent {
        Extent::Lines(counts) => Some(counts.removed as u64),
        _ => None,
    }
}

/// Returns the JSON value of what is to be restored at a path.
#[tactic(auto, unfolding(crate::specs::Restore::restoration_data))]
fn restoration_value(alloc: Global, restoration: &Restoration) -> Result<Value, NoMem>
    ensures { IfOk result (λ v. view v ≡ restoration_data restoration.now) }
{
    let path = path_value(alloc, &restoration.path)?;
    json!(in alloc; {
        "added": number_or_null(added_in(restoration.extent)),
        "change": change_name(restoration.change),
        "extent": extent_name(restoration.extent),
        "path": path,
        "removed": number_or_null(removed_in(restoration.extent))
    })
}

/// Returns the JSON values of what is to be restored, in order.
pub(crate) fn restoration_values(
    alloc: Global,
    restorations: &[Restoration],
) -> Result<Vec<Value>, NoMem>
    ensures { IfOk result (λ vs. map view vs.items ≡ map restoration_data restorations.now) }
{
    let mut values = Vec::new(alloc);
    for restoration in restorations {
        values.push(restoration_value(alloc, restoration)?)?;
    }
    Ok(values)
}

/// Returns the JSON values of the doubtful paths to restore, in order.
pub(crate) fn doubtful_restorations(
    alloc: Global,
    restorations: &[Restoration],
) -> Result<Vec<Value>, NoMem>
    ensures { IfOk result (λ vs. map view vs.items
        ≡ map path_data (doubtful_paths restorations.now)) }
{
    let mut values = Vec::new(alloc);
    for restoration in restorations {
        if restoration.is_doubtful {
            values.push(path_value(alloc, &restoration.path)?)?;
        }
    }
    Ok(values)
}
