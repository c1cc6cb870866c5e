//! The section of paths to restore.
ghost use Rattle.std.specs.Prelude.{◌≡◌, ◌++◌, ◌∷◌, [], OnOk, flat_map};
ghost use Rattle.casebook_view.specs.Sources.{source_view};
ghost use Rattle.casebook_page.specs.Told.{changes_told, doubt_told, extent_told};
ghost use Rattle.casebook_page.specs.Told.{restoration_told, restore_told, row_of, undecided_told};
ghost use Rattle.casebook_page.specs.Told.{writer_told};
ghost use Rattle.casebook_html.specs.declared.piece.Piece.TheVariants.{Fixed};

use crate::NoMem;
use crate::contents::Contents;
use crate::merged_texts::MergedTexts;
use crate::pair::{push_diff, push_preview};
use crate::shown::{push_link, push_none, push_shown_path};
use casebook_changes::PathChange;
use casebook_html::{Html, Tag};
use casebook_summary::{Extent, Restoration, Summary};
use casebook_view::Source;
use retro_tree::{Entry, Path, Tree};
use std::alloc::Global;

/// Appends how many paths change, come back and go.
fn push_counts(html: &mut Html, summary: &Summary) -> Result<(), NoMem>
    ensures { OnOk result (html.new
        ≡ html.old ++ changes_told summary.now.restorations.items) }
{
    html.number(summary.count_changed(PathChange::Modified) as u64)?;
    html.words(" change, ")?;
    html.number(summary.count_changed(PathChange::Added) as u64)?;
    html.words(" come back, ")?;
    html.number(summary.count_changed(PathChange::Removed) as u64)?;
    html.words(" go")
}

/// Appends the start of a path's row.
fn push_start(html: &mut Html, change: PathChange) -> Result<(), NoMem>
    ensures { OnOk result (html.new ≡ html.old ++ Fixed (row_of change) ∷ []) }
{
    match change {
        PathChange::Modified => html.sign(Tag::Modified),
        PathChange::Added => html.sign(Tag::Added),
        PathChange::Removed => html.sign(Tag::Removed),
    }
}

/// Returns the bytes of the file at a path, or none if no file is there.
fn file_at<'a>(tree: &'a Tree, path: &Path) -> &'a [u8] {
    match tree.get(path) {
        Some(Entry::File(bytes)) => bytes.as_slice(),
        Some(Entry::Dir) | None => &[],
    }
}

/// Appends what comes, goes or becomes another kind at a path, unless lines say it.
fn push_kind(html: &mut Html, alloc: Global, extent: Extent) -> Result<(), NoMem>
    ensures { OnOk result (html.new ≡ html.old ++ extent_told extent) }
{
    match extent {
        Extent::NotKept => html.said(alloc, "not kept, restore by hand "),
        Extent::Directory => html.said(alloc, "directory"),
        Extent::ToFile => html.said(alloc, "becomes a file "),
        Extent::ToDirectory => html.said(alloc, "becomes a directory "),
        Extent::EmptyFile => html.said(alloc, "empty file"),
        Extent::Lines(_) => Ok(()),
    }
}

/// Appends a link to the last line that writes differently to a path, if there is one.
fn push_writer(html: &mut Html, writer: Option<u32>) -> Result<(), NoMem>
    ensures { OnOk result (html.new ≡ html.old ++ writer_told writer) }
{
    let Some(number) = writer else {
        return Ok(());
    };
    html.fixed(Tag::Small)?;
    html.words("last written differently by ")?;
    push_link(html, number)?;
    html.fixed(Tag::ParagraphEnd)
}

/// Appends the sign of a doubtful path.
fn push_doubt(html: &mut Html, source: Source<'_>, is_doubtful: bool) -> Result<(), NoMem>
    ensures { OnOk result (html.new
        ≡ html.old ++ doubt_told (source_view source.entry) is_doubtful) }
{
    if !is_doubtful {
        return Ok(());
    }
    match source {
        Source::Played => html.sign(Tag::SignDoubtful),
        Source::Seen(_) => html.sign(Tag::SignDoubtfulNeed),
    }
}

/// Appends the row of a path: how it differs, the first line that differs, and the diff.
fn push_row(
    html: &mut Html,
    alloc: Global,
    contents: Contents<'_, '_>,
    restoration: &Restoration,
) -> Result<(), NoMem>
    ensures { OnOk result (html.new ≡ html.old
        ++ restoration_told contents.entry.case.now.source restoration.now) }
{
    let before = contents.case.recording().last().tree();
    let after = contents.case.repair().state().tree();
    let path = &restoration.path;
    let merged = MergedTexts::of(alloc, file_at(before, path), file_at(after, path))?;
    push_start(html, restoration.change)?;
    push_shown_path(html, alloc, path)?;
    html.fixed(Tag::RowDetail)?;
    push_kind(html, alloc, restoration.extent)?;
    push_preview(html, alloc, &merged)?;
    push_doubt(html, contents.case.source(), restoration.is_doubtful)?;
    html.fixed(Tag::RowBody)?;
    push_writer(html, restoration.writer)?;
    push_diff(html, alloc, &merged)?;
    html.fixed(Tag::DetailsEnd)
}

/// Appends the rows of all paths.
fn push_rows(
    html: &mut Html,
    alloc: Global,
    contents: Contents<'_, '_>,
    paths: &[Restoration],
) -> Result<(), NoMem>
    ensures { OnOk result (html.new ≡ html.old
        ++ flat_map (restoration_told contents.entry.case.now.source) paths.now) }
{
    for path in paths {
        push_row(html, alloc, contents, path)?;
    }
    Ok(())
}

/// Appends the row of a path of which it isn't known what it would be.
fn push_undecided(html: &mut Html, alloc: Global, path: &Path) -> Result<(), NoMem>
    ensures { OnOk result (html.new ≡ html.old ++ undecided_told path.now) }
{
    html.sign(Tag::Undecided)?;
    push_shown_path(html, alloc, path)?;
    html.fixed(Tag::RowDetail)?;
    html.fixed(Tag::RowBody)?;
    html.fixed(Tag::Small)?;
    html.words("as it was recorded, until the lines that wrote it are run for real")?;
    html.fixed(Tag::ParagraphEnd)?;
    html.fixed(Tag::DetailsEnd)
}

/// Appends the rows of all paths of which it isn't known what they would be.
fn push_all_undecided(html: &mut Html, alloc: Global, paths: &[Path]) -> Result<(), NoMem>
    ensures { OnOk result (html.new ≡ html.old ++ flat_map undecided_told paths.now) }
{
    for path in paths {
        push_undecided(html, alloc, path)?;
    }
    Ok(())
}

/// Appends the section of paths to restore, and of those of which it isn't known what they would be.
/// No path is left out.
pub(crate) fn push_restore(
    html: &mut Html,
    alloc: Global,
    contents: Contents<'_, '_>,
) -> Result<(), NoMem>
    ensures { OnOk result (html.new ≡ html.old
        ++ restore_told contents.entry.case.now.source contents.entry.summary.now) }
{
    let paths = contents.summary.restorations.as_slice();
    let undecided = contents.summary.undecided.as_slice();
    html.sign(Tag::Restore)?;
    push_counts(html, contents.summary)?;
    html.fixed(Tag::HeadEnd)?;
    push_rows(html, alloc, contents, paths)?;
    push_all_undecided(html, alloc, undecided)?;
    push_none(html, paths.len().max(undecided.len()))?;
    html.fixed(Tag::SectionEnd)
}
