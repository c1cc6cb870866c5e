//! Paths that lines wrote that aren't understood or have to be run for real.
ghost use Rattle.std.specs.Prelude.{◌≡◌, ◌||◌, ◌&&◌, IfOk, OnOk, map, not};
ghost use Rattle.retro_tree.specs.Path.{PathValue};
ghost use Rattle.casebook_summary.specs.Doubts.{AreUndecided, is_doubtful, is_named};
ghost use Rattle.casebook_summary.specs.Doubts.{is_written_for_real, is_writer};
ghost use Rattle.casebook_summary.specs.Restorations.{restored_path};
ghost use Rattle.casebook_summary.specs.inner.PathSets.{has_path};

use crate::NoMem;
use crate::notice::is_need;
use crate::path_set::PathSet;
use crate::restoration::Restoration;
use casebook_view::{Case, UnknownLine};
use retro_tree::Path;
use std::alloc::Global;

/// Adds the paths to which a line writes, as it was recorded and in the repaired recording.
fn add_line(paths: &mut PathSet, case: &Case<'_>, number: u32) -> Result<(), NoMem>
    ensures { OnOk result ((p : PathValue) → has_path p paths.new.paths.keys
        ≡ (has_path p paths.old.paths.keys
        || is_writer case.now.recording case.now.repair.recording p number)) }
{
    paths.add_line(case.recorded(number))?;
    paths.add_line(case.repaired(number))
}

/// Returns the paths to which lines write that aren't understood.
pub(crate) fn written_paths(
    alloc: Global,
    case: &Case<'_>,
    unknown: &[UnknownLine],
) -> Result<PathSet, NoMem>
    ensures { IfOk result (λ paths. (p : PathValue) → has_path p paths.paths.keys
        ≡ is_doubtful case.now.recording case.now.repair.recording unknown.now p) }
{
    let mut paths = PathSet::new(alloc);
    for line in unknown {
        add_line(&mut paths, case, line.number)?;
    }
    Ok(paths)
}

/// Returns the paths to which lines write that have to be run for real.
fn paths_for_real(alloc: Global, case: &Case<'_>, unknown: &[UnknownLine]) -> Result<PathSet, NoMem>
    ensures { IfOk result (λ paths. (p : PathValue) → has_path p paths.paths.keys
        ≡ is_written_for_real case.now.recording case.now.repair.recording unknown.now p) }
{
    let mut paths = PathSet::new(alloc);
    for line in unknown {
        if is_need(line.obstacle) {
            add_line(&mut paths, case, line.number)?;
        }
    }
    Ok(paths)
}

/// Returns paths without those to restore.
fn without(paths: PathSet, restorations: &[Restoration]) -> PathSet
    ensures { (p : PathValue) → has_path p result.paths.keys
        ≡ (has_path p paths.paths.keys && not (is_named p (map restored_path restorations.now))) }
{
    let mut paths = paths;
    for restoration in restorations {
        paths.remove(&restoration.path);
    }
    paths
}

/// Returns the paths to which a line writes that has to be run for real, but for those to restore,
/// in order.
pub(crate) fn undecided_paths(
    alloc: Global,
    case: &Case<'_>,
    unknown: &[UnknownLine],
    restorations: &[Restoration],
) -> Result<Vec<Path>, NoMem>
    ensures { IfOk result (λ found. AreUndecided case.now.recording case.now.repair.recording
        unknown.now (map restored_path restorations.now) found.items) }
{
    let paths = without(paths_for_real(alloc, case, unknown)?, restorations);
    paths.into_paths(alloc)
}
