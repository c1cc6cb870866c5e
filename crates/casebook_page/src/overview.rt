//! The overview of a page: a row of ticks for each session.
ghost use Rattle.std.specs.Prelude.{◌≡◌, ◌++◌, OnOk, flat_map, map};
ghost use Rattle.casebook_page.specs.Told.{overview_told, session_told, tick_told};
ghost use Rattle.casebook_page.specs.Views.{contents_view};
ghost use Rattle.casebook_page.specs.inner.SessionLines.{AreBySession};

use crate::NoMem;
use crate::contents::Contents;
use crate::session_lines::{Placed, SessionLines};
use crate::shown::push_name;
use casebook_html::{Html, NumberTag, Tag};
use casebook_summary::sessions_of;
use casebook_view::{CaseLine, Fate};
use std::alloc::Global;

/// Appends the tick of a line with a fate, at a place.
fn push_mark(html: &mut Html, fate: Fate, place: u64) -> Result<(), NoMem>
    ensures { OnOk result (html.new ≡ html.old) }
{
    match fate {
        Fate::Cancelled => html.numbered(NumberTag::TickCancelled, place),
        Fate::Changed => html.numbered(NumberTag::TickChanged, place),
        Fate::Alike => html.numbered(NumberTag::TickAlike, place),
        Fate::Kept => html.numbered(NumberTag::TickKept, place),
        Fate::Untouched => html.numbered(NumberTag::TickUntouched, place),
    }
}

/// Appends the tick of a line at its place. An untouched line has a short one without a link.
fn push_tick(html: &mut Html, place: u64, line: &CaseLine) -> Result<(), NoMem>
    ensures { OnOk result (html.new ≡ html.old ++ tick_told line.now) }
{
    if line.fate != Fate::Untouched {
        html.anchor(line.number)?;
    }
    push_mark(html, line.fate, place)
}

/// Appends the ticks of lines, each at its place.
fn push_ticks(html: &mut Html, lines: &[Placed]) -> Result<(), NoMem>
    ensures { OnOk result (html.new
        ≡ html.old ++ flat_map tick_told (map (λ line. line.line) lines.now)) }
{
    for line in lines {
        push_tick(html, line.place, &line.line)?;
    }
    Ok(())
}

/// Appends the row of a session: its name, and a tick for each of its lines.
fn push_session(
    html: &mut Html,
    alloc: Global,
    contents: Contents<'_, '_>,
    lines: &SessionLines,
    session: u32,
) -> Result<(), NoMem>
    ensures { AreBySession contents.entry.summary.now.lines lines.now → OnOk result
        (html.new ≡ html.old ++ session_told (contents_view contents.entry) session) }
{
    let count = contents.summary.lines.as_slice().len();
    html.fixed(Tag::Span)?;
    push_name(html, alloc, contents.labels, session)?;
    html.numbered(NumberTag::Map, count as u64)?;
    push_name(html, alloc, contents.labels, session)?;
    html.fixed(Tag::MapName)?;
    push_ticks(html, lines.at(session))?;
    html.fixed(Tag::MapEnd)
}

/// Appends the overview.
pub(crate) fn push_overview(
    html: &mut Html,
    alloc: Global,
    contents: Contents<'_, '_>,
) -> Result<(), NoMem>
    ensures { OnOk result (html.new ≡ html.old ++ overview_told (contents_view contents.entry)) }
{
    let all = contents.summary.lines.as_slice();
    let lines = SessionLines::of(alloc, all)?;
    let sessions = sessions_of(alloc, all)?;
    html.fixed(Tag::Map)?;
    for session in &sessions {
        push_session(html, alloc, contents, &lines, *session)?;
    }
    html.fixed(Tag::BlockEnd)
}
