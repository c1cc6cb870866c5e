//! Rows of lines: what one shows, and has inside.
ghost use Rattle.std.specs.Prelude.{◌≡◌, ◌++◌, ◌∷◌, [], OnOk, flat_map, map};
ghost use Rattle.std.specs.Option.{option_copied};
ghost use Rattle.casebook_page.specs.Told.{body_told, both_told, class_by, closed_told, did_told};
ghost use Rattle.casebook_page.specs.Told.{mark_told, notes_told, outputs_told, owner_head, path_told};
ghost use Rattle.casebook_page.specs.Told.{remark_told, row_told, write_said, write_told};
ghost use Rattle.casebook_page.specs.Views.{contents_view};
ghost use Rattle.casebook_html.specs.declared.piece.Piece.TheVariants.{Text};

use crate::NoMem;
use crate::contents::{Contents, remark_of};
use crate::merged_texts::MergedTexts;
use crate::pair::{push_output, push_pair};
use crate::shown::{push_command, push_name, push_paths, push_shown_path, push_sign};
use crate::why::push_why;
use casebook_html::{Html, NumberTag, RowClass, Tag};
use casebook_view::{CaseLine, Fate, Obstacle, PathWrite, WriteKind, read_paths, writes_of};
use casebook_words::obstacle_text;
use retro_keep::Noted;
use retro_tree::Path;
use std::alloc::Global;
use std::collections::BTreeMap;

/// What the rows of lines are written from.
#[derive(Drop, Clone, Copy)]
pub(crate) struct Rows<'a, 'r> {
    /// The allocator.
    pub(crate) alloc: Global,
    /// What the page is about.
    pub(crate) contents: Contents<'a, 'r>,
    /// The column of each session, from 0 on.
    pub(crate) columns: &'a BTreeMap<u32, u32>,
}

/// Returns the class of the row of a line with a fate. `is_told` says whether somebody saw another
/// output than the repaired one.
fn class_of(fate: Fate, is_told: bool) -> RowClass
    ensures { result ≡ class_by fate is_told }
{
    match fate {
        Fate::Changed if is_told => RowClass::Told,
        Fate::Cancelled => RowClass::Cancelled,
        Fate::Changed => RowClass::Changed,
        Fate::Alike => RowClass::Alike,
        Fate::Kept => RowClass::Kept,
        Fate::Untouched => RowClass::Untouched,
    }
}

/// Appends the column and the sign of a line with a fate.
fn push_code(html: &mut Html, fate: Fate, column: u64) -> Result<(), NoMem>
    ensures { OnOk result (html.new ≡ html.old) }
{
    match fate {
        Fate::Cancelled => html.numbered(NumberTag::CodeCancelled, column),
        Fate::Changed => html.numbered(NumberTag::CodeChanged, column),
        Fate::Alike => html.numbered(NumberTag::CodeAlike, column),
        Fate::Kept => html.numbered(NumberTag::CodeKept, column),
        Fate::Untouched => html.numbered(NumberTag::CodeUntouched, column),
    }
}

/// Appends the start of what is said of a line that isn't understood, has to be run for real, or
/// was observed. The last is in small type.
fn push_paragraph(html: &mut Html, obstacle: Obstacle) -> Result<(), NoMem>
    ensures { OnOk result (html.new ≡ html.old) }
{
    match obstacle {
        Obstacle::Observed => html.fixed(Tag::Small),
        _ => html.fixed(Tag::Paragraph),
    }
}

/// Appends whether a line isn't understood, has to be run for real, or was observed.
fn push_standing(html: &mut Html, obstacle: Obstacle) -> Result<(), NoMem>
    ensures { OnOk result (html.new ≡ html.old) }
{
    match obstacle {
        Obstacle::Need => html.words("has to be run for real: "),
        Obstacle::Observed => html.words("as it was observed: "),
        _ => html.words("not understood: "),
    }
}

/// Appends why a line isn't understood or has to be run for real, or that it stands as it was
/// observed and why, if one of these is so.
fn push_remark(html: &mut Html, alloc: Global, remark: Option<Obstacle>) -> Result<(), NoMem>
    ensures { OnOk result (html.new ≡ html.old ++ remark_told remark) }
{
    let Some(obstacle) = remark else {
        return Ok(());
    };
    push_paragraph(html, obstacle)?;
    push_sign(html, obstacle)?;
    push_standing(html, obstacle)?;
    html.said(alloc, obstacle_text(obstacle))?;
    html.fixed(Tag::ParagraphEnd)
}

/// Appends the sign of a line that isn't understood, has to be run for real, or was observed.
fn push_mark(html: &mut Html, remark: Option<Obstacle>) -> Result<(), NoMem>
    ensures { OnOk result (html.new ≡ html.old ++ mark_told remark) }
{
    match remark {
        Some(obstacle) => push_sign(html, obstacle),
        None => Ok(()),
    }
}

/// Appends how a line wrote to a path.
#[tactic(auto, unfolding(crate::specs::Told::write_said))]
fn push_verb(html: &mut Html, alloc: Global, kind: WriteKind) -> Result<(), NoMem>
    ensures { OnOk result (html.new ≡ html.old ++ Text (write_said kind) ∷ []) }
{
    match kind {
        WriteKind::Put => html.said(alloc, "wrote "),
        WriteKind::Append => html.said(alloc, "appended to "),
        WriteKind::Remove => html.said(alloc, "removed "),
    }
}

/// Appends what a line did to a path.
fn push_write(html: &mut Html, alloc: Global, write: &PathWrite) -> Result<(), NoMem>
    ensures { OnOk result (html.new ≡ html.old ++ write_told write.now) }
{
    push_verb(html, alloc, write.kind)?;
    push_shown_path(html, alloc, &write.path)
}

/// Appends what a line did to paths, after what it read.
fn push_writes(
    html: &mut Html,
    alloc: Global,
    has_read: bool,
    writes: &[PathWrite],
) -> Result<(), NoMem>
    ensures { OnOk result (html.new ≡ html.old ++ flat_map write_told writes.now) }
{
    let mut is_first = !has_read;
    for write in writes {
        if !is_first {
            html.words("; ")?;
        }
        push_write(html, alloc, write)?;
        is_first = false;
    }
    Ok(())
}

/// Appends the paths that a line read, unless it read none.
fn push_reads(html: &mut Html, alloc: Global, paths: &[Path]) -> Result<(), NoMem>
    ensures { OnOk result (html.new ≡ html.old ++ map path_told paths.now) }
{
    if paths.is_empty() {
        return Ok(());
    }
    html.words("read ")?;
    push_paths(html, alloc, paths)
}

/// Appends which paths a line read and wrote, unless there are none.
fn push_notes(html: &mut Html, alloc: Global, is_observed: bool, noted: &Noted) -> Result<(), NoMem>
    ensures { OnOk result (html.new ≡ html.old ++ notes_told is_observed noted.now) }
{
    let read = read_paths(alloc, noted.notes.as_slice(), is_observed)?;
    let wrote = writes_of(alloc, noted.notes.as_slice())?;
    if read.is_empty() && wrote.is_empty() {
        return Ok(());
    }
    html.fixed(Tag::Small)?;
    push_reads(html, alloc, read.as_slice())?;
    push_writes(html, alloc, !read.is_empty(), wrote.as_slice())?;
    html.fixed(Tag::ParagraphEnd)
}

/// Appends which paths a line read and wrote, if there is such a line.
fn push_did(
    html: &mut Html,
    alloc: Global,
    is_observed: bool,
    noted: Option<&Noted>,
) -> Result<(), NoMem>
    ensures { OnOk result (html.new
        ≡ html.old ++ did_told is_observed (option_copied noted.entry)) }
{
    match noted {
        Some(noted) => push_notes(html, alloc, is_observed, noted),
        None => Ok(()),
    }
}

impl Rows<'_, '_> {
    /// Appends both outputs of a line.
    fn push_both(self, html: &mut Html, number: u32) -> Result<(), NoMem>
        ensures { OnOk result (html.new ≡ html.old ++ outputs_told number) }
    {
        let old = self.contents.recorded_output(number);
        let new = self.contents.repaired_output(number);
        let merged = MergedTexts::of(self.alloc, old, new)?;
        push_pair(html, self.alloc, number, &merged)
    }

    /// Appends what a line printed: both outputs if it prints something else in the repaired run.
    fn push_outputs(self, html: &mut Html, line: &CaseLine) -> Result<(), NoMem>
        ensures { OnOk result (html.new ≡ html.old
            ++ both_told (contents_view self.entry.contents) line.now) }
    {
        if self.contents.has_other_output(line) {
            return self.push_both(html, line.number);
        }
        let output = self.contents.recorded_output(line.number);
        push_output(html, self.alloc, output)
    }

    /// Appends which line an open row shows, whose it is, and the line.
    fn push_owner(self, html: &mut Html, line: &CaseLine) -> Result<(), NoMem>
        ensures { OnOk result (html.new ≡ html.old
            ++ owner_head (contents_view self.entry.contents) line.now) }
    {
        html.fixed(Tag::Body)?;
        html.number(u64::from(line.number))?;
        html.fixed(Tag::BodyName)?;
        push_name(html, self.alloc, self.contents.labels, line.session)?;
        html.fixed(Tag::BodyNameEnd)?;
        html.fixed(Tag::Command)?;
        push_command(html, self.alloc, self.contents.case, line.number)?;
        html.fixed(Tag::PreEnd)
    }

    /// Appends what the row of a line has inside.
    fn push_body(self, html: &mut Html, line: &CaseLine) -> Result<(), NoMem>
        ensures { OnOk result (html.new ≡ html.old
            ++ body_told (contents_view self.entry.contents) line.now) }
    {
        let noted = self.contents.case.recorded(line.number);
        self.push_owner(html, line)?;
        push_remark(html, self.alloc, remark_of(line))?;
        push_why(html, self.alloc, self.contents, line)?;
        push_did(html, self.alloc, line.is_observed, noted)?;
        self.push_outputs(html, line)?;
        html.fixed(Tag::BlockEnd)
    }

    /// Appends the column of a line, and the sign of what becomes of it.
    fn push_column(self, html: &mut Html, line: &CaseLine) -> Result<(), NoMem>
        ensures { OnOk result (html.new ≡ html.old) }
    {
        let column = self.columns.get(&line.session).copied().unwrap_or(0);
        push_code(html, line.fate, u64::from(column))
    }

    /// Appends what the closed row of a line shows: the line's number, its time, what its session
    /// is called, and the command in that session's column.
    fn push_closed(self, html: &mut Html, line: &CaseLine) -> Result<(), NoMem>
        ensures { OnOk result (html.new ≡ html.old
            ++ closed_told (contents_view self.entry.contents) line.now) }
    {
        let labels = self.contents.labels;
        html.number(u64::from(line.number))?;
        html.fixed(Tag::LineTime)?;
        html.text(labels.time_of(self.alloc, line.number)?)?;
        html.fixed(Tag::LineName)?;
        push_name(html, self.alloc, labels, line.session)?;
        self.push_column(html, line)?;
        push_mark(html, remark_of(line))?;
        push_command(html, self.alloc, self.contents.case, line.number)?;
        html.fixed(Tag::LineEnd)
    }

    /// Appends the row of a line.
    pub(crate) fn push_row(self, html: &mut Html, line: &CaseLine) -> Result<(), NoMem>
        ensures { OnOk result (html.new ≡ html.old
            ++ row_told (contents_view self.entry.contents) line.now) }
    {
        let class = class_of(line.fate, self.contents.has_other_output(line));
        html.row(line.number, class)?;
        self.push_closed(html, line)?;
        self.push_body(html, line)?;
        html.fixed(Tag::DetailsEnd)
    }
}
