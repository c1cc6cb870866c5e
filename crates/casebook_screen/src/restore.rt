//! What is to be restored.
ghost use Rattle.std.specs.Prelude.{◌≡◌, ◌++◌, IsTrue, OnOk, flat_map};
ghost use Rattle.std.specs.List.{list_all};
ghost use Rattle.casebook_summary.specs.declared.restoration.Extent.TheVariants.{Lines};
ghost use Rattle.casebook_text.specs.SafeText.{is_printable};
ghost use Rattle.casebook_screen.specs.Told.{all_paths_told, change_sign, changes_told, doubt_told, extent_told};
ghost use Rattle.casebook_screen.specs.Told.{restoration_told, restore_told, undecided_told};

use crate::NoMem;
use crate::screen::Screen;
use crate::shown::path_line;
use casebook_changes::PathChange;
use casebook_summary::{Extent, LineCounts, Restoration, Summary};
use retro_tree::Path;
use std::alloc::Global;

/// Appends how many lines of a file are added and removed.
fn push_line_counts(screen: &mut Screen, counts: LineCounts) -> Result<(), NoMem>
    ensures { OnOk result (screen.new ≡ screen.old ++ extent_told (Lines counts)) }
{
    screen.words("+")?;
    screen.number(counts.added as u64)?;
    screen.words(" -")?;
    screen.number(counts.removed as u64)
}

/// Appends how much of a path is to be restored.
fn push_extent(screen: &mut Screen, alloc: Global, extent: Extent) -> Result<(), NoMem>
    ensures { OnOk result (screen.new ≡ screen.old ++ extent_told extent) }
{
    match extent {
        Extent::Directory => screen.said(alloc, "directory"),
        Extent::EmptyFile => screen.said(alloc, "empty file"),
        Extent::ToDirectory => screen.said(alloc, "becomes a directory"),
        Extent::ToFile => screen.said(alloc, "becomes a file"),
        Extent::NotKept => screen.said(alloc, "not kept, restore by hand"),
        Extent::Lines(counts) => push_line_counts(screen, counts),
    }
}

/// Appends a question mark before a doubtful path.
fn push_doubt(screen: &mut Screen, alloc: Global, is_doubtful: bool) -> Result<(), NoMem>
    ensures { OnOk result (screen.new ≡ screen.old ++ doubt_told is_doubtful) }
{
    if is_doubtful {
        screen.said(alloc, "? ")
    } else {
        screen.words("  ")
    }
}

/// Returns the letter of a change.
fn change_sign(change: PathChange) -> &'static str
    ensures value { result.now ≡ change_sign change }
    ensures printable { IsTrue (list_all is_printable result.now) }
{
    match change {
        PathChange::Added => "A ",
        PathChange::Removed => "D ",
        PathChange::Modified => "M ",
    }
}

/// Returns the width of the widest path.
fn widest(alloc: Global, paths: &[Restoration]) -> Result<usize, NoMem> {
    let mut width = 0_usize;
    for path in paths {
        width = width.max(path_line(alloc, &path.path)?.width());
    }
    Ok(width)
}

/// Appends what is to be restored at a path, which is shown in a column.
fn push_restoration(
    screen: &mut Screen,
    alloc: Global,
    path: &Restoration,
    width: usize,
) -> Result<(), NoMem>
    ensures { OnOk result (screen.new ≡ screen.old ++ restoration_told path.now) }
{
    push_doubt(screen, alloc, path.is_doubtful)?;
    screen.said(alloc, change_sign(path.change))?;
    screen.padded(path_line(alloc, &path.path)?, width)?;
    screen.words("  ")?;
    push_extent(screen, alloc, path.extent)?;
    screen.end()
}

/// Appends what is to be restored, path by path.
fn push_restorations(screen: &mut Screen, alloc: Global, paths: &[Restoration]) -> Result<(), NoMem>
    ensures { OnOk result (screen.new ≡ screen.old ++ flat_map restoration_told paths.now) }
{
    let width = widest(alloc, paths)?;
    for path in paths {
        push_restoration(screen, alloc, path, width)?;
    }
    Ok(())
}

/// Appends the paths of which it isn't known what they would be.
fn push_undecided(screen: &mut Screen, alloc: Global, paths: &[Path]) -> Result<(), NoMem>
    ensures { OnOk result (screen.new ≡ screen.old ++ flat_map undecided_told paths.now) }
{
    for path in paths {
        screen.said(alloc, "?   ")?;
        screen.text(path_line(alloc, path)?)?;
        screen.end()?;
    }
    Ok(())
}

/// Appends how many paths change, come back and go.
#[tactic(auto, unfolding(crate::specs::Told::changes_told))]
fn push_changes(screen: &mut Screen, summary: &Summary) -> Result<(), NoMem>
    ensures { OnOk result (screen.new
        ≡ screen.old ++ changes_told summary.now.restorations.items) }
{
    screen.number(summary.count_changed(PathChange::Modified) as u64)?;
    screen.words(" change, ")?;
    screen.number(summary.count_changed(PathChange::Added) as u64)?;
    screen.words(" come back, ")?;
    screen.number(summary.count_changed(PathChange::Removed) as u64)?;
    screen.words(" go")?;
    screen.end()
}

/// Appends what question marks say, if there are any.
fn push_legend(screen: &mut Screen, summary: &Summary) -> Result<(), NoMem>
    ensures { OnOk result (screen.new ≡ screen.old) }
{
    if summary.undecided.is_empty() && !summary.restorations.iter().any(|path| path.is_doubtful) {
        return Ok(());
    }
    screen.words("  ? written by a line that wasn't understood or has to be run for real")?;
    screen.end()
}

/// Appends all paths, and what question marks say.
#[tactic(auto, unfolding(crate::specs::Told::all_paths_told))]
fn push_all_paths(screen: &mut Screen, alloc: Global, summary: &Summary) -> Result<(), NoMem>
    ensures { OnOk result (screen.new ≡ screen.old ++ all_paths_told summary.now) }
{
    push_restorations(screen, alloc, summary.restorations.as_slice())?;
    push_undecided(screen, alloc, summary.undecided.as_slice())?;
    push_legend(screen, summary)
}

/// Appends what is to be restored: an empty line, how many paths there are, each of them, with a
/// question mark before doubtful ones, and the paths of which it isn't known what they would be.
pub(crate) fn push_restore(
    screen: &mut Screen,
    alloc: Global,
    summary: &Summary,
) -> Result<(), NoMem>
    ensures { OnOk result (screen.new ≡ screen.old ++ restore_told summary.now) }
{
    screen.end()?;
    screen.said(alloc, "RESTORE  ")?;
    push_changes(screen, summary)?;
    push_all_paths(screen, alloc, summary)
}
