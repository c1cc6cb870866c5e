//! Pages of repairs.
ghost use Rattle.std.specs.Prelude.{◌≡◌, ◌++◌, IfOk, OnOk, string_bytes};
ghost use Rattle.casebook_html.specs.Page.{IsPage};
ghost use Rattle.casebook_page.specs.Told.{front_told, page_told, rows_told};
ghost use Rattle.casebook_page.specs.Views.{contents_view};

use crate::NoMem;
use crate::cancelled::push_cancelled;
use crate::contents::Contents;
use crate::head::{push_head, push_key, push_lead};
use crate::overview::push_overview;
use crate::restore::push_restore;
use crate::row::Rows;
use crate::tell::push_tell;
use crate::unknown::push_unknown;
use casebook_html::{Html, Tag};
use casebook_summary::sessions_of;
use std::alloc::Global;
use std::collections::{BTreeMap, BTreeSet};

/// Returns the column of each session, from 0 on.
fn columns_of(alloc: Global, sessions: &BTreeSet<u32>) -> Result<BTreeMap<u32, u32>, NoMem> {
    let mut columns = BTreeMap::new(alloc);
    let mut next = 0_u32;
    for session in sessions {
        columns.insert(*session, next)?;
        next = next.saturating_add(1);
    }
    Ok(columns)
}

/// Appends all of a page that comes before the rows of lines, of so many sessions.
fn push_front(
    html: &mut Html,
    alloc: Global,
    contents: Contents<'_, '_>,
    sessions: usize,
) -> Result<(), NoMem>
    ensures { OnOk result (html.new ≡ html.old ++ front_told (contents_view contents.entry)) }
{
    push_head(html, alloc, contents.title, sessions)?;
    push_lead(html, alloc, contents)?;
    push_unknown(html, alloc, contents)?;
    push_overview(html, alloc, contents)?;
    push_key(html, contents.summary)?;
    push_cancelled(html, alloc, contents)?;
    push_restore(html, alloc, contents)?;
    push_tell(html, alloc, contents)
}

/// Appends the rows of lines, in columns by session, and the end of the page.
fn push_rows(
    html: &mut Html,
    alloc: Global,
    contents: Contents<'_, '_>,
    sessions: &BTreeSet<u32>,
) -> Result<(), NoMem>
    ensures { OnOk result (html.new ≡ html.old
        ++ rows_told (contents_view contents.entry) sessions.now.keys) }
{
    let columns = columns_of(alloc, sessions)?;
    let rows = Rows {
        alloc,
        contents,
        columns: &columns,
    };
    rows.push_heads(html, sessions)?;
    rows.push_all(html, contents.summary.lines.as_slice())?;
    html.fixed(Tag::LinesEnd)?;
    html.fixed(Tag::Script)
}

/// Returns the page of a repair. It begins with its policy, and tells what `specs/Told.antt` says of
/// the repair, in order, and nothing else. A line has a row, but an untouched one if there are more
/// than 5,000 lines and not all are asked for.
pub fn page(alloc: Global, contents: Contents<'_, '_>) -> Result<String, NoMem>
    ensures { IfOk result (λ text.
        IsPage (page_told (contents_view contents.entry)) (string_bytes text)) }
{
    let sessions = sessions_of(alloc, contents.summary.lines.as_slice())?;
    let mut html = Html::new(alloc);
    push_front(&mut html, alloc, contents, sessions.len())?;
    push_rows(&mut html, alloc, contents, &sessions)?;
    html.page(alloc)
}
