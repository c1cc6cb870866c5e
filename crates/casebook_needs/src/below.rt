//! What a line touched below directories.
ghost use Rattle.std.specs.Prelude.{◌≡◌, ◌++◌, IfOk, OnOk, List, filter, map};
ghost use Rattle.std.specs.BTreeSet.{contains};
ghost use Rattle.std.specs.List.{list_any};
ghost use Rattle.retro_path.specs.Order.{path_cmp};
ghost use Rattle.retro_path.specs.Path.{PathValue, prefixes_of};
ghost use Rattle.casebook_needs.specs.Line.{effect_path, line_value, touched};
ghost use Rattle.casebook_needs.specs.Needs.{is_below_any};
ghost use Rattle.casebook_needs.specs.inner.Sets.{HasPaths};

use crate::NoMem;
use crate::observed_line::ObservedLine;
use retro_path::Path;
use std::alloc::Global;
use std::collections::BTreeSet;

/// Returns the set of some paths.
fn set_of(alloc: Global, paths: &[Path]) -> Result<BTreeSet<Path>, NoMem>
    ensures { IfOk result (λ set. HasPaths set paths.now) }
{
    let mut set = BTreeSet::new(alloc);
    for path in paths {
        set.insert(path.copy()?)?;
    }
    Ok(set)
}

/// Returns whether one of some paths is in a set.
fn has_any(set: &BTreeSet<Path>, paths: &[Path]) -> bool
    ensures { result ≡ list_any (contains path_cmp set.now) paths.now }
{
    for path in paths {
        if set.contains(path) {
            return true;
        }
    }
    false
}

/// Returns whether a path is one of some directories or below one. Takes a look-up for each name of
/// the path.
fn is_below(alloc: Global, directories: &BTreeSet<Path>, path: &Path) -> Result<bool, NoMem>
    ensures { IfOk result (λ is. (paths : List PathValue)
        → HasPaths directories.now paths → is ≡ is_below_any paths path.now) }
{
    if directories.contains(&Path::root(alloc)) {
        return Ok(true);
    }
    Ok(has_any(directories, path.prefixes(alloc)?.as_slice()))
}

/// Appends the paths that are one of some directories or below one.
fn push_below(
    alloc: Global,
    below: &mut Vec<Path>,
    directories: &BTreeSet<Path>,
    paths: &[Path],
) -> Result<(), NoMem>
    ensures { OnOk result ((dirs : List PathValue) → HasPaths directories.now dirs
        → below.new.items ≡ below.old.items ++ filter (is_below_any dirs) paths.now) }
{
    for path in paths {
        if is_below(alloc, directories, path)? {
            below.push(path.copy()?)?;
        }
    }
    Ok(())
}

/// Returns the paths that a line changed.
fn changed_paths(alloc: Global, line: &ObservedLine<'_>) -> Result<Vec<Path>, NoMem>
    ensures { IfOk result (λ paths. paths.items ≡ map effect_path line.now.effects.now) }
{
    let mut paths = Vec::new(alloc);
    for effect in line.effects {
        paths.push(effect.path().copy()?)?;
    }
    Ok(paths)
}

/// Returns what a line touched that is one of some directories or below one.
pub(crate) fn touched_below(
    alloc: Global,
    directories: &[Path],
    line: &ObservedLine<'_>,
) -> Result<Vec<Path>, NoMem>
    ensures { IfOk result (λ below.
        below.items ≡ filter (is_below_any directories.now) (touched (line_value line.now))) }
{
    let directories = set_of(alloc, directories)?;
    let mut below = Vec::new(alloc);
    push_below(alloc, &mut below, &directories, line.read)?;
    push_below(alloc, &mut below, &directories, line.listed)?;
    let changed = changed_paths(alloc, line)?;
    push_below(alloc, &mut below, &directories, changed.as_slice())?;
    Ok(below)
}
