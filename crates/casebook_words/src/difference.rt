//! Differences of answers, in words.
ghost use Rattle.std.specs.Prelude.{◌≡◌, ◌++◌, IfOk, OnOk, ◌||◌, is_some, option_map};
ghost use Rattle.casebook_words.specs.Lines.{texts_in};
ghost use Rattle.casebook_words.specs.Difference.{both_words, difference_words, file_in};
ghost use Rattle.casebook_words.specs.Difference.{first_difference, has_last_newline, kept};
ghost use Rattle.casebook_words.specs.Difference.{line_difference};
ghost use Rattle.casebook_words.specs.Difference.{line_difference_words, line_words, listing_in};
ghost use Rattle.casebook_words.specs.Difference.{name_difference, name_difference_words};
ghost use Rattle.casebook_words.specs.Difference.{newline_between, newline_difference};
ghost use Rattle.casebook_words.specs.Difference.{newline_words, other_words, side_words};
ghost use Rattle.casebook_words.specs.inner.Differences.{line_value, name_value};

use crate::NoMem;
use crate::answer_words::{VALUE_LIMIT, push_answer};
use crate::common_front::after_common;
use crate::cut::push_cut;
use crate::first_line::text_at_front;
use crate::first_name::{OtherName, first_other_name};
use casebook_opaque::is_opaque;
use casebook_text::SafeLine;
use retro_tree::{Answer, Bytes, Name, Node};
use std::alloc::Global;

/// The first line in which two texts differ.
#[derive(Drop)]
struct LineDifference<'a> {
    /// The number of the line, from 1 on.
    number: u64,
    /// The line of the old text, or `None` if that ends before it.
    old: Option<&'a [u8]>,
    /// The line of the new text, or `None` if that ends before it.
    new: Option<&'a [u8]>,
}

/// Returns whether one of two texts at least has a line.
fn is_any_some(one: Option<&[u8]>, two: Option<&[u8]>) -> bool
    ensures { result ≡ (is_some one.entry || is_some two.entry) }
{
    one.is_some() || two.is_some()
}

/// Returns the first line in which two texts differ, or `None` if all lines are the same. Then one
/// text may have a last newline that the other lacks.
fn first_difference<'a>(old: &'a [u8], new: &'a [u8]) -> Option<LineDifference<'a>>
    ensures { option_map line_value result
        ≡ first_difference (texts_in old.entry.now) (texts_in new.entry.now) }
{
    let rests = after_common(old, new);
    let old = text_at_front(rests.old);
    let new = text_at_front(rests.new);
    if !is_any_some(old, new) {
        return None;
    }
    Some(LineDifference {
        number: rests.before as u64 + 1,
        old,
        new,
    })
}

/// Returns the bytes of a file, unless they stand for something else.
fn kept(bytes: &Bytes) -> Option<&[u8]>
    ensures { option_map (λ bytes. bytes.now) result ≡ kept bytes.now }
{
    if is_opaque(bytes.as_slice()) {
        return None;
    }
    Some(bytes.as_slice())
}

/// Returns the bytes of a file, if that is the answer and they don't stand for something else.
fn file_in(answer: &Answer) -> Option<&[u8]>
    ensures { option_map (λ bytes. bytes.now) result ≡ file_in answer.now }
{
    match answer {
        Answer::Bytes(Node::File(bytes)) => kept(bytes),
        _ => None,
    }
}

/// Returns the names of a directory, if that is the answer.
fn listing_in(answer: &Answer) -> Option<&[Name]>
    ensures { option_map (λ names. names.now) result ≡ listing_in answer.now }
{
    match answer {
        Answer::Names(Some(listing)) => Some(listing.names()),
        _ => None,
    }
}

/// Returns the first line in which two answers differ, if both are files and a line differs.
#[tactic(auto, unfolding(crate::specs::Difference::line_difference))]
fn line_difference<'a>(old: &'a Answer, new: &'a Answer) -> Option<LineDifference<'a>>
    ensures { option_map line_value result ≡ line_difference old.entry.now new.entry.now }
{
    let one = file_in(old)?;
    let two = file_in(new)?;
    first_difference(one, two)
}

/// Returns the first name in which two answers differ, if both are listings and a name differs.
#[tactic(auto, unfolding(crate::specs::Difference::name_difference))]
fn name_difference<'a>(
    alloc: Global,
    old: &'a Answer,
    new: &'a Answer,
) -> Result<Option<OtherName<'a>>, NoMem>
    ensures { IfOk result (λ found. option_map name_value found
        ≡ name_difference old.entry.now new.entry.now) }
{
    match (listing_in(old), listing_in(new)) {
        (Some(one), Some(two)) => first_other_name(alloc, one, two),
        _ => Ok(None),
    }
}

/// Appends a line of a text, or that the text ends before it.
#[tactic(auto, unfolding(crate::specs::Difference::line_words))]
fn push_line(alloc: Global, line: &mut SafeLine, text: Option<&[u8]>) -> Result<(), NoMem>
    ensures { OnOk result (line.new
        ≡ line.old ++ line_words (option_map (λ bytes. bytes.now) text.entry)) }
{
    match text {
        Some(bytes) => push_cut(alloc, line, bytes, VALUE_LIMIT),
        None => line.push_ascii("ends before it"),
    }
}

/// Appends the first line in which two texts differ.
#[tactic(auto, unfolding(crate::specs::Difference::line_difference_words))]
fn push_line_difference(
    alloc: Global,
    line: &mut SafeLine,
    found: &LineDifference<'_>,
) -> Result<(), NoMem>
    ensures { OnOk result (line.new ≡ line.old ++ line_difference_words (line_value found.now)) }
{
    line.push_ascii(" line ")?;
    line.push_number(alloc, found.number)?;
    line.push_ascii(": ")?;
    push_line(alloc, line, found.old)?;
    line.push_ascii(" / ")?;
    push_line(alloc, line, found.new)
}

/// Appends which of two listings has a name.
#[tactic(auto, unfolding(crate::specs::Difference::side_words))]
fn push_sides(line: &mut SafeLine, is_old: bool) -> Result<(), NoMem>
    ensures { OnOk result (line.new ≡ line.old ++ side_words is_old) }
{
    if is_old {
        line.push_ascii(": there / missing")
    } else {
        line.push_ascii(": missing / there")
    }
}

/// Appends a name that is in one of two listings alone.
#[tactic(auto, unfolding(crate::specs::Difference::name_difference_words))]
fn push_name_difference(
    alloc: Global,
    line: &mut SafeLine,
    found: &OtherName<'_>,
) -> Result<(), NoMem>
    ensures { OnOk result (line.new ≡ line.old ++ name_difference_words (name_value found.now)) }
{
    line.push_ascii(", name ")?;
    line.push_word(alloc, found.name.as_str().as_bytes())?;
    push_sides(line, found.is_old)
}

/// Returns whether a newline ends a text.
fn has_last_newline(text: &[u8]) -> bool
    ensures { result ≡ has_last_newline text.now }
{
    match text.last() {
        Some(byte) => *byte == b'\n',
        None => false,
    }
}

/// Returns whether it is the old one of two texts with the same lines that has a last newline,
/// which the other lacks, or `None` if they are the same.
#[tactic(auto, unfolding(crate::specs::Difference::newline_between))]
fn newline_between(old: &[u8], new: &[u8]) -> Option<bool>
    ensures { result ≡ newline_between old.now new.now }
{
    if old == new {
        return None;
    }
    Some(has_last_newline(old))
}

/// Returns which of two answers has a last newline that the other lacks, if both are files with the
/// same lines.
#[tactic(auto, unfolding(crate::specs::Difference::newline_difference))]
fn newline_difference(old: &Answer, new: &Answer) -> Option<bool>
    ensures { result ≡ newline_difference old.now new.now }
{
    let one = file_in(old)?;
    let two = file_in(new)?;
    newline_between(one, two)
}

/// Appends which of two texts has a last newline.
#[tactic(auto, unfolding(crate::specs::Difference::newline_words))]
fn push_newline(line: &mut SafeLine, is_old: bool) -> Result<(), NoMem>
    ensures { OnOk result (line.new ≡ line.old ++ newline_words is_old) }
{
    line.push_ascii(" last newline")?;
    push_sides(line, is_old)?;
    Ok(())
}

/// Appends both answers in words.
#[tactic(auto, unfolding(crate::specs::Difference::both_words))]
fn push_both(alloc: Global, line: &mut SafeLine, old: &Answer, new: &Answer) -> Result<(), NoMem>
    ensures { OnOk result (line.new ≡ line.old ++ both_words old.now new.now) }
{
    line.push_ascii(": ")?;
    push_answer(alloc, line, old)?;
    line.push_ascii(" / ")?;
    push_answer(alloc, line, new)
}

/// Appends how two answers to a query differ of which no line differs.
#[tactic(auto, unfolding(crate::specs::Difference::other_words))]
fn push_other(alloc: Global, line: &mut SafeLine, old: &Answer, new: &Answer) -> Result<(), NoMem>
    ensures { OnOk result (line.new ≡ line.old ++ other_words old.now new.now) }
{
    if let Some(is_old) = newline_difference(old, new) {
        return push_newline(line, is_old);
    }
    match name_difference(alloc, old, new)? {
        Some(found) => push_name_difference(alloc, line, &found),
        None => push_both(alloc, line, old, new),
    }
}

/// Appends how two answers to a query differ: of two texts the first line that differs, or which of
/// them a newline ends, of two listings the first name that one lacks, and else both answers.
#[tactic(auto, unfolding(crate::specs::Difference::difference_words))]
pub fn push_difference(
    alloc: Global,
    line: &mut SafeLine,
    old: &Answer,
    new: &Answer,
) -> Result<(), NoMem>
    ensures { OnOk result (line.new ≡ line.old ++ difference_words old.now new.now) }
{
    match line_difference(old, new) {
        Some(found) => push_line_difference(alloc, line, &found),
        None => push_other(alloc, line, old, new),
    }
}
