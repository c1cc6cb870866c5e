//! The section of whom to tell.
ghost use Rattle.std.specs.Prelude.{◌≡◌, ◌++◌, None, OnOk, false};
ghost use Rattle.casebook_page.specs.Told.{first_of, group_told, groups_told, is_session};
ghost use Rattle.casebook_page.specs.Told.{lines_of_group, outputs_told, person_told};
ghost use Rattle.casebook_page.specs.Told.{subject_head, tell_told};
ghost use Rattle.casebook_page.specs.inner.Screens.{is_known};
ghost use Rattle.casebook_page.specs.Views.{contents_view};

use crate::NoMem;
use crate::contents::Contents;
use crate::merged_texts::MergedTexts;
use crate::pair::{push_pair, push_preview};
use crate::shown::{push_command, push_links, push_name, push_none};
use casebook_about::Labels;
use casebook_html::{Html, Tag};
use casebook_summary::{Group, subject_line};
use std::alloc::Global;

/// Returns the number of the first line of a group, or 0 if it has no lines.
fn first_of(group: &Group) -> u32
    ensures { result ≡ first_of group.now.lines.items }
{
    match group.lines.as_slice() {
        [first, ..] => *first,
        [] => 0,
    }
}

/// What is known of what lines printed.
#[derive(Clone, Copy)]
enum Screens {
    /// What they printed, and what they would print.
    Known,
    /// Nothing: they were observed, and have to be run for real.
    Unknown,
}

/// Appends how many lines a group has, and what it is about.
fn push_head(html: &mut Html, alloc: Global, group: &Group) -> Result<(), NoMem>
    ensures { OnOk result (html.new ≡ html.old ++ subject_head group.now) }
{
    html.fixed(Tag::Subject)?;
    html.number(group.lines.len() as u64)?;
    html.fixed(Tag::Times)?;
    html.text(subject_line(alloc, &group.subject)?)?;
    html.fixed(Tag::RowDetail)
}

/// Appends a noun for so many lines.
fn push_noun(html: &mut Html, count: usize) -> Result<(), NoMem>
    ensures { OnOk result (html.new ≡ html.old) }
{
    if count == 1 {
        html.words("line")
    } else {
        html.words("lines")
    }
}

/// Appends the lines of a group, and the text of the first one.
fn push_lines(
    html: &mut Html,
    alloc: Global,
    contents: Contents<'_, '_>,
    group: &Group,
) -> Result<(), NoMem>
    ensures { OnOk result (html.new ≡ html.old
        ++ lines_of_group contents.entry.case.now.recording group.now) }
{
    html.fixed(Tag::Small)?;
    push_noun(html, group.lines.len())?;
    push_links(html, group.lines.as_slice())?;
    html.fixed(Tag::ParagraphEnd)?;
    html.fixed(Tag::Command)?;
    push_command(html, alloc, contents.case, first_of(group))?;
    html.fixed(Tag::PreEnd)
}

/// Appends how the output of a group's first line differs, and inside of the row both outputs.
fn push_outputs(
    html: &mut Html,
    alloc: Global,
    contents: Contents<'_, '_>,
    group: &Group,
) -> Result<(), NoMem>
    ensures { OnOk result (html.new ≡ html.old
        ++ lines_of_group contents.entry.case.now.recording group.now
        ++ outputs_told (first_of group.now.lines.items)) }
{
    let first = first_of(group);
    let (old, new) = (
        contents.recorded_output(first),
        contents.repaired_output(first),
    );
    let merged = MergedTexts::of(alloc, old, new)?;
    push_preview(html, alloc, &merged)?;
    html.fixed(Tag::RowBody)?;
    push_lines(html, alloc, contents, group)?;
    push_pair(html, alloc, first, &merged)
}

/// Appends the lines of a group without their outputs.
fn push_unknown(
    html: &mut Html,
    alloc: Global,
    contents: Contents<'_, '_>,
    group: &Group,
) -> Result<(), NoMem>
    ensures { OnOk result (html.new ≡ html.old
        ++ lines_of_group contents.entry.case.now.recording group.now) }
{
    html.fixed(Tag::RowBody)?;
    push_lines(html, alloc, contents, group)
}

/// Appends the row of a group: how many lines it has, what it is about, and, if that is known, how
/// the first one's output differs.
fn push_group(
    html: &mut Html,
    alloc: Global,
    contents: Contents<'_, '_>,
    group: &Group,
    screens: Screens,
) -> Result<(), NoMem>
    ensures { OnOk result (html.new ≡ html.old
        ++ group_told (contents_view contents.entry) (is_known screens) group.now) }
{
    push_head(html, alloc, group)?;
    match screens {
        Screens::Known => push_outputs(html, alloc, contents, group)?,
        Screens::Unknown => push_unknown(html, alloc, contents, group)?,
    }
    html.fixed(Tag::DetailsEnd)
}

/// Returns whether a session is the last one.
fn is_session(last: Option<u32>, session: u32) -> bool
    ensures { result ≡ is_session last session }
{
    match last {
        Some(number) => number == session,
        None => false,
    }
}

/// Appends the name of a session, unless it is that of the group before.
fn push_person(
    html: &mut Html,
    alloc: Global,
    labels: &Labels,
    last: Option<u32>,
    session: u32,
) -> Result<(), NoMem>
    ensures { OnOk result (html.new ≡ html.old ++ person_told labels.now last session) }
{
    if is_session(last, session) {
        return Ok(());
    }
    html.fixed(Tag::Person)?;
    push_name(html, alloc, labels, session)?;
    html.fixed(Tag::PersonEnd)
}

/// Appends groups: by session, and by what the lines are about.
fn push_groups(
    html: &mut Html,
    alloc: Global,
    contents: Contents<'_, '_>,
    groups: &[Group],
    screens: Screens,
) -> Result<(), NoMem>
    ensures { OnOk result (html.new ≡ html.old ++ groups_told (contents_view contents.entry)
        (is_known screens) None groups.now) }
{
    let mut last = None;
    for group in groups {
        push_person(html, alloc, contents.labels, last, group.session)?;
        push_group(html, alloc, contents, group, screens)?;
        last = Some(group.session);
    }
    Ok(())
}

/// Appends who looked at what by lines that have to be run for real, or nothing if nobody did.
fn push_looks(html: &mut Html, alloc: Global, contents: Contents<'_, '_>) -> Result<(), NoMem>
    ensures { OnOk result (html.new ≡ html.old ++ groups_told (contents_view contents.entry)
        false None contents.entry.summary.now.looked.items) }
{
    let groups = contents.summary.looked.as_slice();
    if groups.is_empty() {
        return Ok(());
    }
    html.fixed(Tag::Paragraph)?;
    html.words("Who looked by observed lines, at what would be another:")?;
    html.fixed(Tag::ParagraphEnd)?;
    push_groups(html, alloc, contents, groups, Screens::Unknown)
}

/// Appends the section of whom to tell: by session, and by what the lines are about. No session and
/// no line is left out.
pub(crate) fn push_tell(
    html: &mut Html,
    alloc: Global,
    contents: Contents<'_, '_>,
) -> Result<(), NoMem>
    ensures { OnOk result (html.new ≡ html.old ++ tell_told (contents_view contents.entry)) }
{
    let groups = contents.summary.told.as_slice();
    html.sign(Tag::Tell)?;
    push_groups(html, alloc, contents, groups, Screens::Known)?;
    push_none(html, groups.len())?;
    push_looks(html, alloc, contents)?;
    html.fixed(Tag::SectionEnd)
}
