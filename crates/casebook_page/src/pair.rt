//! Two texts side by side, their diff, and previews of how they differ. The texts themselves tell
//! nothing of the repair, but whose they are.
ghost use Rattle.std.specs.Prelude.{◌≡◌, ◌++◌, OnOk};
ghost use Rattle.casebook_page.specs.Told.{outputs_told};

use crate::NoMem;
use crate::block::push_block;
use crate::merged_texts::MergedTexts;
use crate::text_line::{Form, TextLine, text_lines};
use casebook_html::{Html, Run, Tag};
use casebook_text::{Mark, SafeLine};
use casebook_words::push_cut;
use std::alloc::Global;

/// How many bytes of a line are in a preview.
const PREVIEW_LIMIT: usize = 33;

/// Appends the front of a line.
fn push_front(html: &mut Html, alloc: Global, text: &[u8]) -> Result<(), NoMem>
    ensures { OnOk result (html.new ≡ html.old) }
{
    let mut line = SafeLine::new(alloc);
    push_cut(alloc, &mut line, text, PREVIEW_LIMIT)?;
    html.aside(line)
}

/// Appends how many more lines differ, unless none does.
fn push_more(html: &mut Html, alloc: Global, count: usize) -> Result<(), NoMem>
    ensures { OnOk result (html.new ≡ html.old) }
{
    if count == 0 {
        return Ok(());
    }
    let mut line = SafeLine::new(alloc);
    line.push_number(alloc, count as u64)?;
    line.push_ascii(" more")?;
    html.fixed(Tag::More)?;
    html.aside(line)?;
    html.fixed(Tag::MoreEnd)
}

/// Appends the first line that goes, cut if it is long.
fn push_removed(html: &mut Html, alloc: Global, text: &[u8]) -> Result<(), NoMem>
    ensures { OnOk result (html.new ≡ html.old) }
{
    html.fixed(Tag::Delete)?;
    push_front(html, alloc, text)?;
    html.fixed(Tag::DeleteEnd)?;
    html.words(" ")
}

/// Appends the first line that comes, cut if it is long.
fn push_added(html: &mut Html, alloc: Global, text: &[u8]) -> Result<(), NoMem>
    ensures { OnOk result (html.new ≡ html.old) }
{
    html.fixed(Tag::Insert)?;
    push_front(html, alloc, text)?;
    html.fixed(Tag::InsertEnd)
}

/// Appends the first line that goes and the first that comes, each cut if it is long, and how many
/// more lines differ.
pub(crate) fn push_preview(
    html: &mut Html,
    alloc: Global,
    merged: &MergedTexts<'_>,
) -> Result<(), NoMem>
    ensures { OnOk result (html.new ≡ html.old) }
{
    let mut shown = 0_usize;
    if let Some(text) = merged.first(Mark::Removed) {
        push_removed(html, alloc, text)?;
        shown = 1;
    }
    if let Some(text) = merged.first(Mark::Added) {
        push_added(html, alloc, text)?;
        shown = shown.saturating_add(1);
    }
    push_more(html, alloc, merged.count_changed().saturating_sub(shown))
}

/// Appends one of two texts, or that it is empty.
fn push_side(html: &mut Html, alloc: Global, lines: &[TextLine<'_>]) -> Result<(), NoMem>
    ensures { OnOk result (html.new ≡ html.old) }
{
    if lines.is_empty() {
        html.fixed(Tag::Nothing)?;
    }
    push_block(html, alloc, lines, Form::Side)?;
    html.fixed(Tag::FigureEnd)
}

/// Appends what the line with a number printed, and what it prints in the repaired run, side by side.
pub(crate) fn push_pair(
    html: &mut Html,
    alloc: Global,
    number: u32,
    merged: &MergedTexts<'_>,
) -> Result<(), NoMem>
    ensures { OnOk result (html.new ≡ html.old ++ outputs_told number) }
{
    let old = merged.old_lines(alloc)?;
    let new = merged.new_lines(alloc)?;
    html.fixed(Tag::Pair)?;
    html.output(Run::Recorded, number)?;
    push_side(html, alloc, old.as_slice())?;
    html.output(Run::Repaired, number)?;
    push_side(html, alloc, new.as_slice())?;
    html.fixed(Tag::BlockEnd)
}

/// Appends the diff of two texts, unless it is empty.
pub(crate) fn push_diff(
    html: &mut Html,
    alloc: Global,
    merged: &MergedTexts<'_>,
) -> Result<(), NoMem>
    ensures { OnOk result (html.new ≡ html.old) }
{
    let lines = merged.diff(alloc)?;
    if lines.is_empty() {
        return Ok(());
    }
    html.fixed(Tag::Diff)?;
    push_block(html, alloc, lines.as_slice(), Form::Diff)?;
    html.fixed(Tag::PreEnd)
}

/// Appends what a line printed, unless it printed nothing.
pub(crate) fn push_output(html: &mut Html, alloc: Global, output: &[u8]) -> Result<(), NoMem>
    ensures { OnOk result (html.new ≡ html.old) }
{
    let lines = text_lines(alloc, output)?;
    if lines.is_empty() {
        return Ok(());
    }
    html.fixed(Tag::Pre)?;
    push_block(html, alloc, lines.as_slice(), Form::Alone)?;
    html.fixed(Tag::PreEnd)
}
