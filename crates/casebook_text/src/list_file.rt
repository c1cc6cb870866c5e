//! Lists of lines in files.
ghost use Rattle.std.specs.Prelude.{◌≡◌, ◌++◌, IfOk, OnOk, flat_map, map, string_bytes};
ghost use Rattle.std.specs.Str.{trim};
ghost use Rattle.casebook_text.specs.ListFile.{content_of_line, items_of_line, list_of_file};

use crate::NoMem;
use crate::splitting::{before_first, split_at};
use std::alloc::Global;

/// Returns what a file's line has before its comment, without the white space around it.
fn content_of_line(line: &str) -> &str
    ensures { result.now ≡ content_of_line line.now }
{
    before_first(line, '#').trim()
}

/// Appends items, each without the white space around it.
fn push_trimmed<'a>(found: &mut Vec<&'a str>, items: &[&'a str]) -> Result<(), NoMem>
    ensures { OnOk result (map (λ s. s.now) found.new.items
        ≡ map (λ s. s.now) found.old.items ++ map trim (map (λ s. s.now) items.now)) }
{
    for item in items {
        found.push(item.trim())?;
    }
    Ok(())
}

/// Appends the items of a line.
#[tactic(auto, unfolding(crate::specs::ListFile::items_of_line))]
fn push_items<'a>(alloc: Global, found: &mut Vec<&'a str>, line: &'a str) -> Result<(), NoMem>
    ensures { OnOk result (map (λ s. s.now) found.new.items
        ≡ map (λ s. s.now) found.old.items ++ items_of_line line.now) }
{
    let content = content_of_line(line);
    if content.is_empty() {
        return Ok(());
    }
    let items = split_at(alloc, content, ',')?;
    push_trimmed(found, items.as_slice())
}

/// Returns the items of all lines.
fn items_of_lines<'a>(alloc: Global, lines: &[&'a str]) -> Result<Vec<&'a str>, NoMem>
    ensures { IfOk result (λ v. map (λ s. s.now) v.items
        ≡ flat_map items_of_line (map (λ s. s.now) lines.now)) }
{
    let mut found = Vec::new(alloc);
    for line in lines {
        push_items(alloc, &mut found, line)?;
    }
    Ok(found)
}

/// Returns the list of lines that a file's text holds, for `lines_of_list`. Newlines count as
/// commas, and `#` to the end of a line is a comment. White space around an item and lines without
/// items don't count.
pub fn list_of_file(alloc: Global, text: &str) -> Result<String, NoMem>
    ensures { IfOk result (λ list. string_bytes list ≡ list_of_file text.now) }
{
    let lines = split_at(alloc, text, '\n')?;
    let items = items_of_lines(alloc, lines.as_slice())?;
    let list = items.as_slice().join(alloc, ",")?;
    Ok(list)
}
