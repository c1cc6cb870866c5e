//! Two texts, merged line by line.
use crate::NoMem;
use crate::text_line::{TextLine, text_lines};
use casebook_text::{Hunk, Mark, hunks};
use casebook_words::FileLines;
use std::alloc::Global;

/// How many lines around those that differ are in a diff.
const CONTEXT: usize = 3;

/// Two texts, merged line by line.
#[derive(Drop)]
pub(crate) struct MergedTexts<'a> {
    /// The lines of both texts, each with its mark.
    lines: Vec<TextLine<'a>>,
    /// The parts that differ, with lines around them.
    hunks: Vec<Hunk>,
}

/// Returns the marks of lines.
fn marks_of(alloc: Global, lines: &[(Mark, &str)]) -> Result<Vec<Mark>, NoMem> {
    let mut marks = Vec::new(alloc);
    for (mark, _) in lines {
        marks.push(*mark)?;
    }
    Ok(marks)
}

/// Returns the marks of the merged lines of two texts, and the parts that differ.
fn compare(alloc: Global, old: &[u8], new: &[u8]) -> Result<(Vec<Mark>, Vec<Hunk>), NoMem> {
    let lines = FileLines::of_bytes(alloc, old, new)?;
    let merged = lines.merged(alloc)?;
    let marks = marks_of(alloc, merged.as_slice())?;
    let hunks = hunks(alloc, merged.as_slice(), CONTEXT)?;
    Ok((marks, hunks))
}

/// Returns the lines of two texts in the order of the marks of their merged lines.
fn with_marks<'a>(
    alloc: Global,
    marks: &[Mark],
    old: &[TextLine<'a>],
    new: &[TextLine<'a>],
) -> Result<Vec<TextLine<'a>>, NoMem> {
    let mut olds = old.iter();
    let mut news = new.iter();
    let mut merged = Vec::new(alloc);
    for mark in marks {
        let before = if mark.is_in_old() { olds.next() } else { None };
        let after = if mark.is_in_new() { news.next() } else { None };
        if let Some(line) = before.or(after) {
            merged.push(line.with_mark(*mark))?;
        }
    }
    Ok(merged)
}

impl<'a> MergedTexts<'a> {
    /// Returns two texts, merged.
    pub(crate) fn of(
        alloc: Global,
        old: &'a [u8],
        new: &'a [u8],
    ) -> Result<MergedTexts<'a>, NoMem> {
        let (marks, hunks) = compare(alloc, old, new)?;
        let old = text_lines(alloc, old)?;
        let new = text_lines(alloc, new)?;
        let lines = with_marks(alloc, marks.as_slice(), old.as_slice(), new.as_slice())?;
        Ok(MergedTexts { lines, hunks })
    }

    /// Returns the first line with a mark.
    pub(crate) fn first(&self, mark: Mark) -> Option<&'a [u8]> {
        for line in &self.lines {
            if line.mark == mark {
                return Some(line.text);
            }
        }
        None
    }

    /// Returns how many lines are in one text alone.
    pub(crate) fn count_changed(&self) -> usize {
        self.lines
            .iter()
            .filter(|line| line.mark != Mark::Same)
            .count()
    }

    /// Returns the lines of the old text, with the marks that they have in the merged ones.
    pub(crate) fn old_lines(&self, alloc: Global) -> Result<Vec<TextLine<'a>>, NoMem> {
        let mut lines = Vec::new(alloc);
        for line in &self.lines {
            if line.mark.is_in_old() {
                lines.push(*line)?;
            }
        }
        Ok(lines)
    }

    /// Returns the lines of the new text, with the marks that they have in the merged ones.
    pub(crate) fn new_lines(&self, alloc: Global) -> Result<Vec<TextLine<'a>>, NoMem> {
        let mut lines = Vec::new(alloc);
        for line in &self.lines {
            if line.mark.is_in_new() {
                lines.push(*line)?;
            }
        }
        Ok(lines)
    }

    /// Appends the lines of a part of a diff.
    fn push_part(&self, lines: &mut Vec<TextLine<'a>>, hunk: &Hunk) -> Result<(), NoMem> {
        let mut head = Some(*hunk);
        for index in hunk.from..hunk.to {
            if let Some(line) = self.lines.as_slice().get(index) {
                lines.push(line.with_hunk(head))?;
                head = None;
            }
        }
        Ok(())
    }

    /// Returns the lines of the diff: those that differ, with up to three around them. The first
    /// line of each part has its head.
    pub(crate) fn diff(&self, alloc: Global) -> Result<Vec<TextLine<'a>>, NoMem> {
        let mut lines = Vec::new(alloc);
        for hunk in &self.hunks {
            self.push_part(&mut lines, hunk)?;
        }
        Ok(lines)
    }
}
