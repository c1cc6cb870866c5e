//! What is shown of repairs: summaries, reasons, diffs, single lines, and documents.
use casebook_about::Labels;
use casebook_json::summary_json;
use casebook_screen::{Names, NoMem, detail_lines, diff_lines, summary_lines, why_lines};
use casebook_summary::Summary;
use casebook_text::text_of_lines;
use casebook_view::Case;
use retro_rows::{fail, text};
use serde_json::Value;
use std::alloc::Global;
use std::test::Fail;

/// The width of the column of names.
const WIDTH: usize = 8;

/// A repair, its summary, and what sessions and lines are called.
#[derive(Drop, Clone, Copy)]
pub struct Shown<'a, 'r> {
    /// The repair.
    pub case: &'a Case<'r>,
    /// Its summary.
    pub summary: &'a Summary,
    /// What sessions and lines are called.
    pub labels: &'a Labels,
}

impl<'a> Shown<'a, '_> {
    /// Returns the names of sessions in their column.
    fn names(self) -> Names<'a> {
        Names {
            labels: self.labels,
            width: WIDTH,
        }
    }

    /// Returns the summary as the text that a terminal shows, or as a document.
    fn summary_text(self, alloc: Global, is_document: bool) -> Result<String, NoMem> {
        if is_document {
            return summary_json(alloc, self.case.source(), self.summary, self.labels);
        }
        let lines = summary_lines(alloc, self.case, self.summary, self.names())?;
        text_of_lines(alloc, lines.as_slice())
    }

    /// Returns why lines are run again.
    fn why_text(self, alloc: Global) -> Result<String, NoMem> {
        let lines = why_lines(alloc, self.case, self.summary, self.names())?;
        text_of_lines(alloc, lines.as_slice())
    }

    /// Returns what the repair changes.
    fn diff_text(self, alloc: Global) -> Result<String, NoMem> {
        let lines = diff_lines(alloc, self.case, self.summary.restorations.as_slice())?;
        text_of_lines(alloc, lines.as_slice())
    }

    /// Returns a line in full.
    fn detail_text(self, alloc: Global, number: u32) -> Result<String, NoMem> {
        let lines = detail_lines(alloc, self.case, self.summary, self.names(), number)?;
        text_of_lines(alloc, lines.as_slice())
    }

    /// Returns a part of what a terminal shows.
    pub fn part(self, alloc: Global, part: &str) -> Result<String, NoMem> {
        match part {
            "summary" => self.summary_text(alloc, false),
            "why" => self.why_text(alloc),
            "diff" => self.diff_text(alloc),
            _ => text(alloc, "no such part"),
        }
    }

    /// Returns the line with a number in full, as a terminal shows it.
    pub fn line(self, alloc: Global, number: &str) -> Result<String, Fail> {
        Ok(self.detail_text(alloc, number.parse()?)?)
    }

    /// Returns what is at a pointer into the document, as compact JSON.
    pub fn at(self, alloc: Global, pointer: &str) -> Result<String, Fail> {
        let document = self.summary_text(alloc, true)?;
        if is_line(document.as_bytes()) {
            text_at(alloc, &document, pointer)
        } else {
            fail("the document isn't a line")
        }
    }
}

/// Returns whether bytes are a line: a newline ends them, and they have no other control code.
fn is_line(bytes: &[u8]) -> bool {
    match bytes {
        [line @ .., b'\n'] => line.iter().all(|byte| *byte >= b' '),
        _ => false,
    }
}

/// Returns what is at a pointer into a document (RFC 6901), as compact JSON.
fn text_at(alloc: Global, document: &str, pointer: &str) -> Result<String, Fail> {
    let document = Value::from_str(alloc, document)?;
    match document.pointer(pointer) {
        Some(value) => Ok(value.to_string(alloc)?),
        None => fail("nothing is at a pointer"),
    }
}
