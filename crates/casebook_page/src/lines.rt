//! The section of all lines: a row for each, in columns by session.
ghost use Rattle.std.specs.Prelude.{◌≡◌, ◌++◌, ◌∷◌, [], ◌≤◌, ◌<◌, OnOk, length, map};
ghost use Rattle.casebook_page.specs.Told.{heads_told, is_written, lines_told, name_told};
ghost use Rattle.casebook_page.specs.Views.{contents_view};

use crate::NoMem;
use crate::row::Rows;
use crate::shown::push_name;
use casebook_html::{Html, NumberTag, Tag};
use casebook_text::SafeLine;
use casebook_view::{CaseLine, Fate};
use std::collections::BTreeSet;

/// From so many untouched lines after one another on, they are folded.
const FOLD_LENGTH: usize = 3;

/// Returns whether a line is untouched.
fn is_untouched(line: &CaseLine) -> bool {
    matches!(line.fate, Fate::Untouched)
}

/// Returns whether a line has a row.
fn is_written(shows_untouched: bool, line: &CaseLine) -> bool
    ensures { result ≡ is_written shows_untouched line.now }
{
    shows_untouched || line.fate != Fate::Untouched
}

/// Returns how many untouched lines come first, or 1 if the first line isn't untouched.
fn run_length(lines: &[CaseLine]) -> usize
    requires { 0 < length lines.now }
    ensures some { 0 < result }
    ensures within { result ≤ length lines.now }
{
    match lines.iter().position(|line| !is_untouched(line)) {
        Some(0) => 1,
        Some(count) => count,
        None => lines.len(),
    }
}

impl Rows<'_, '_> {
    /// Appends the row of a line, if it has one.
    fn push_line(self, html: &mut Html, line: &CaseLine) -> Result<(), NoMem>
        ensures { OnOk result (html.new ≡ html.old
            ++ lines_told (contents_view self.entry.contents) (line.now ∷ [])) }
    {
        if !is_written(self.contents.shows_untouched(), line) {
            return Ok(());
        }
        self.push_row(html, line)
    }

    /// Appends the rows of lines.
    fn push_lines(self, html: &mut Html, lines: &[CaseLine]) -> Result<(), NoMem>
        ensures { OnOk result (html.new ≡ html.old
            ++ lines_told (contents_view self.entry.contents) lines.now) }
    {
        for line in lines {
            self.push_line(html, line)?;
        }
        Ok(())
    }

    /// Appends when the first and the last of some lines were typed, if both are known.
    fn push_times(self, line: &mut SafeLine, first: u32, last: u32) -> Result<(), NoMem> {
        let from = self.contents.labels.time_of(self.alloc, first)?;
        let to = self.contents.labels.time_of(self.alloc, last)?;
        if from.as_str().is_empty() || to.as_str().is_empty() {
            return Ok(());
        }
        line.push_ascii(", ")?;
        line.push_line(&from)?;
        line.push_ascii(" to ")?;
        line.push_line(&to)
    }

    /// Returns what a fold of untouched lines shows.
    fn fold_line(self, lines: &[CaseLine]) -> Result<SafeLine, NoMem> {
        let mut line = SafeLine::new(self.alloc);
        line.push_number(self.alloc, lines.len() as u64)?;
        line.push_ascii(" untouched")?;
        if let [first, .., last] = lines {
            self.push_times(&mut line, first.number, last.number)?;
        }
        if !self.contents.shows_untouched() {
            line.push_ascii(", not written here")?;
        }
        Ok(line)
    }

    /// Appends the rows of lines in a fold.
    fn push_fold(self, html: &mut Html, lines: &[CaseLine]) -> Result<(), NoMem>
        ensures { OnOk result (html.new ≡ html.old
            ++ lines_told (contents_view self.entry.contents) lines.now) }
    {
        html.fixed(Tag::Fold)?;
        html.aside(self.fold_line(lines)?)?;
        html.fixed(Tag::FoldEnd)?;
        self.push_lines(html, lines)?;
        html.fixed(Tag::DetailsEnd)
    }

    /// Returns whether lines are folded: untouched ones, if there are three or more, or if they
    /// have no rows.
    fn are_folded(self, lines: &[CaseLine]) -> bool {
        let is_long = lines.len() >= FOLD_LENGTH || !self.contents.shows_untouched();
        is_long && lines.iter().all(|line| is_untouched(line))
    }

    /// Appends the rows of lines, folded or not.
    fn push_run(self, html: &mut Html, lines: &[CaseLine]) -> Result<(), NoMem>
        ensures { OnOk result (html.new ≡ html.old
            ++ lines_told (contents_view self.entry.contents) lines.now) }
    {
        if self.are_folded(lines) {
            self.push_fold(html, lines)
        } else {
            self.push_lines(html, lines)
        }
    }

    /// Appends the rows of all lines, untouched ones after one another folded.
    pub(crate) fn push_all(self, html: &mut Html, lines: &[CaseLine]) -> Result<(), NoMem>
        ensures { OnOk result (html.new ≡ html.old
            ++ lines_told (contents_view self.entry.contents) lines.now) }
    {
        let mut rest = lines;
        while !rest.is_empty() {
            let (run, more) = rest.split_at(run_length(rest));
            self.push_run(html, run)?;
            rest = more;
        }
        Ok(())
    }

    /// Appends the head of a session's column.
    fn push_column_head(self, html: &mut Html, session: u32, column: u64) -> Result<(), NoMem>
        ensures { OnOk result (html.new
            ≡ html.old ++ name_told self.entry.contents.labels.now session ∷ []) }
    {
        html.numbered(NumberTag::Column, column)?;
        push_name(html, self.alloc, self.contents.labels, session)?;
        html.fixed(Tag::SpanEnd)
    }

    /// Appends the heads of the columns: the sessions' names.
    fn push_columns(self, html: &mut Html, sessions: &BTreeSet<u32>) -> Result<(), NoMem>
        ensures { OnOk result (html.new ≡ html.old
            ++ map (name_told self.entry.contents.labels.now) sessions.now.keys) }
    {
        let mut column = 0_u64;
        for session in sessions {
            self.push_column_head(html, *session, column)?;
            column = column.saturating_add(1);
        }
        Ok(())
    }

    /// Appends the head of the section, with those of the columns.
    pub(crate) fn push_heads(self, html: &mut Html, sessions: &BTreeSet<u32>) -> Result<(), NoMem>
        ensures { OnOk result (html.new ≡ html.old
            ++ heads_told self.entry.contents.labels.now sessions.now.keys) }
    {
        html.sign(Tag::Lines)?;
        html.fixed(Tag::Columns)?;
        self.push_columns(html, sessions)?;
        html.fixed(Tag::BlockEnd)
    }
}
