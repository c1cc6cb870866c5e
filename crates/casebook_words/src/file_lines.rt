//! The lines of a file before and after.
ghost use Rattle.std.specs.Prelude.{◌≡◌, IfOk, IsTrue, map};
ghost use Rattle.std.specs.List.{list_all};
ghost use Rattle.casebook_text.specs.Diff.{in_new, in_old, is_same, marked};
ghost use Rattle.casebook_text.specs.Hunks.{count_in};
ghost use Rattle.casebook_words.specs.Lines.{line_of};
ghost use Rattle.casebook_words.specs.FileLines.{is_added, is_removed, lines_at, shown_line};
ghost use Rattle.casebook_words.specs.FileLines.{shown_lines};

use crate::NoMem;
use crate::first_line::{FirstLine, split_line};
use casebook_text::{Mark, SafeLine, diff};
use retro_tree::{Entry, Path, Tree};
use std::alloc::Global;

/// The lines of a file before and after, as they are shown. A missing file has no lines.
#[derive(Drop)]
pub struct FileLines {
    /// The lines before.
    pub old: Vec<SafeLine>,
    /// The lines after.
    pub new: Vec<SafeLine>,
}

/// Returns a line of a file as it is shown. One without a newline says so.
#[tactic(auto, unfolding(crate::specs::FileLines::shown_line))]
fn shown_line(alloc: Global, first: &FirstLine<'_>) -> Result<SafeLine, NoMem>
    ensures { IfOk result (λ line.
        line ≡ shown_line (line_of first.now.text.now first.now.is_ended)) }
{
    let mut line = SafeLine::new(alloc);
    line.push_bytes(alloc, first.text)?;
    if first.is_ended {
        return Ok(line);
    }
    line.push_remark("no newline")?;
    Ok(line)
}

/// Returns the lines of a text as they are shown. A last line without a newline says so.
pub fn shown_lines(alloc: Global, text: &[u8]) -> Result<Vec<SafeLine>, NoMem>
    ensures { IfOk result (λ lines. lines.items ≡ shown_lines text.now) }
{
    let mut lines = Vec::new(alloc);
    let mut rest = text;
    while let Some(first) = split_line(rest) {
        lines.push(shown_line(alloc, &first)?)?;
        rest = first.rest;
    }
    Ok(lines)
}

/// Returns the lines of the file at a path, as they are shown, or none if no file is there.
fn lines_at(alloc: Global, tree: &Tree, path: &Path) -> Result<Vec<SafeLine>, NoMem>
    ensures { IfOk result (λ lines. lines.items ≡ lines_at path.now tree.now) }
{
    match tree.get(path) {
        Some(Entry::File(bytes)) => shown_lines(alloc, bytes.as_slice()),
        Some(Entry::Dir) | None => Ok(Vec::new(alloc)),
    }
}

/// Borrows the texts of lines.
fn texts(alloc: Global, lines: &[SafeLine]) -> Result<Vec<&str>, NoMem>
    ensures { IfOk result (λ texts. map (λ text. text.now) texts.items ≡ lines.now) }
{
    let mut texts = Vec::with_capacity(alloc, lines.len())?;
    for line in lines {
        texts.push(line.as_str())?;
    }
    Ok(texts)
}

impl FileLines {
    /// Returns the lines at a path in two trees.
    pub fn of(alloc: Global, before: &Tree, after: &Tree, path: &Path) -> Result<FileLines, NoMem>
        ensures old { IfOk result (λ lines. lines.old.items ≡ lines_at path.now before.now) }
        ensures new { IfOk result (λ lines. lines.new.items ≡ lines_at path.now after.now) }
    {
        Ok(FileLines {
            old: lines_at(alloc, before, path)?,
            new: lines_at(alloc, after, path)?,
        })
    }

    /// Returns the lines of two texts.
    pub fn of_bytes(alloc: Global, before: &[u8], after: &[u8]) -> Result<FileLines, NoMem>
        ensures old { IfOk result (λ lines. lines.old.items ≡ shown_lines before.now) }
        ensures new { IfOk result (λ lines. lines.new.items ≡ shown_lines after.now) }
    {
        Ok(FileLines {
            old: shown_lines(alloc, before)?,
            new: shown_lines(alloc, after)?,
        })
    }

    /// Returns the lines of both texts, merged: those marked `Same` and `Removed` are the lines
    /// before, in order, and those marked `Same` and `Added` the lines after. The cost is that of
    /// [`diff`].
    pub fn merged(&self, alloc: Global) -> Result<Vec<(Mark, &str)>, NoMem>
        ensures old { IfOk result (λ lines. marked in_old lines.items ≡ self.now.old.items) }
        ensures new { IfOk result (λ lines. marked in_new lines.items ≡ self.now.new.items) }

        // Equal texts have no other mark than `Same`.
        ensures equal { self.now.old.items ≡ self.now.new.items
            → IfOk result (λ lines. IsTrue (list_all (λ line. is_same line.0) lines.items)) }
    {
        let old = texts(alloc, self.old.as_slice())?;
        let new = texts(alloc, self.new.as_slice())?;
        diff(alloc, old.as_slice(), new.as_slice())
    }
}

/// Returns how many merged lines are in the new text alone.
pub fn count_added(lines: &[(Mark, &str)]) -> usize
    ensures { result ≡ count_in is_added lines.now }
{
    lines.iter().filter(|line| !line.0.is_in_old()).count()
}

/// Returns how many merged lines are in the old text alone.
pub fn count_removed(lines: &[(Mark, &str)]) -> usize
    ensures { result ≡ count_in is_removed lines.now }
{
    lines.iter().filter(|line| !line.0.is_in_new()).count()
}
