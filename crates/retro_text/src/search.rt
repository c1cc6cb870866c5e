//! `grep -F` (XCU grep).
ghost use Rattle.std.specs.Prelude.{◌≡◌, ◌++◌, ◌∷◌, [], IfOk, length, option_map, map};
ghost use Rattle.std.specs.Prelude.{string_bytes};
ghost use Rattle.std.specs.Prelude.{decimal};
ghost use Rattle.std.specs.List.{list_any};
ghost use Rattle.retro_path.specs.Ascii.{newline};
ghost use Rattle.retro_text.specs.Lines.{lines_in};
ghost use Rattle.retro_text.specs.Search.{search_in, is_part, is_match};
ghost use Rattle.retro_text.specs.Search.{matches, selects, labelled_text};
ghost use Rattle.retro_text.specs.Search.{selected_lines, label_of, output_of, search_status};

use crate::lines::Lines;
use crate::request::Request;
use memchr::memmem;
use retro_path::{Bytes, NoMem};
use std::alloc::Global;
use std::marker::Model;

/// The byte that ends a line, and separates patterns.
const NEWLINE: u8 = b'\n';

/// A search of `grep -F`: its patterns, and the options that change it.
#[derive(Drop)]
pub struct Search<'a> {
    /// The patterns, separated by newlines.
    patterns: &'a [u8],
    inverted: bool,
    whole: bool,
    counted: bool,
    quiet: bool,
}

impl<'a> Model for Search<'a> {
    ghost use Rattle.std.specs.Prelude.{◌==◌};
    ghost use Rattle.std.specs.List.{slice_split};
    ghost use Rattle.retro_path.specs.Ascii.{newline};
    ghost use Rattle.retro_text.specs.Search.{SearchValue, search_with};

    ghost Value = { SearchValue };

    ghost view = { λ a. search_with (slice_split (λ b. b == newline) a.patterns.now)
        a.inverted a.whole a.counted a.quiet };
}

/// What a search printed of a text, and whether it selected a line.
#[derive(Drop)]
pub struct Found {
    pub output: Bytes,
    pub selected: bool,
}

/// Returns whether a pattern is part of a line.
#[tactic(auto, using(crate::proofs::PartLemmas::found_part))]
fn is_part(pattern: &[u8], line: &[u8]) -> bool
    ensures { result ≡ is_part pattern.now line.now }
{
    memmem::find(line, pattern).is_some()
}

/// Returns whether a line has a pattern as a part, or if `whole` (`-x`) equals it.
fn is_match(whole: bool, pattern: &[u8], line: &[u8]) -> bool
    ensures { result ≡ is_match whole line.now pattern.now }
{
    if whole {
        line == pattern
    } else {
        is_part(pattern, line)
    }
}

/// Returns a label followed by a number and a newline.
fn count_text(alloc: Global, label: &[u8], count: usize) -> Result<Bytes, NoMem>
    ensures { IfOk result (λ text. text ≡ label.now ++ decimal count ++ newline ∷ []) }
{
    let mut text = Bytes::new(alloc);
    text.extend(label)?;
    let digits = count.to_string(alloc)?;
    text.extend(digits.as_bytes())?;
    text.extend(b"\n")?;
    Ok(text)
}

impl<'a> Search<'a> {
    /// Returns the search that a request asks for, and the operands after its patterns, or `None`
    /// if `-F` or the patterns are missing. Newlines separate the patterns in their operand.
    #[tactic(auto, unfolding(crate::specs::Search::search_in))]
    pub fn of(request: &Request<'a>) -> Option<(Search<'a>, &'a [String])>
        ensures { option_map (λ r. (r.0, map string_bytes r.1.now)) result
            ≡ search_in request.now }
    {
        let [patterns, files @ ..] = request.operands() else {
            return None;
        };
        if !request.has(b'F') {
            return None;
        }
        let search = Search {
            patterns: patterns.as_bytes(),
            inverted: request.has(b'v'),
            whole: request.has(b'x'),
            counted: request.has(b'c'),
            quiet: request.has(b'q'),
        };
        Some((search, files))
    }

    /// Returns whether the search prints nothing and ends at the first operand with a selected line
    /// (`-q`).
    pub fn is_quiet(&self) -> bool
        ensures { result ≡ self.now.quiet }
    {
        self.quiet
    }

    /// Returns whether a line has one of the patterns as a part, or under `-x` equals one.
    fn matches(&self, line: &[u8]) -> bool
        ensures { result ≡ matches self.now line.now }
    {
        self.patterns
            .split(|byte| *byte == NEWLINE)
            .any(|pattern| is_match(self.whole, pattern, line))
    }

    /// Returns whether a line is selected: it matches, or under `-v` it doesn't.
    pub fn selects(&self, line: &[u8]) -> bool
        ensures { result ≡ selects self.now line.now }
    {
        self.matches(line) != self.inverted
    }

    /// Returns whether a line of a text is selected.
    fn selects_any(&self, text: &[u8]) -> bool
        ensures { result ≡ list_any (selects self.now) (lines_in text.now) }
    {
        for line in Lines::of(text) {
            if self.selects(line) {
                return true;
            }
        }
        false
    }

    /// Returns the number of selected lines of a text.
    #[tactic(auto, using(crate::proofs::SearchLemmas::counting))]
    fn count(&self, text: &[u8]) -> usize
        ensures { result ≡ length (selected_lines self.now text.now) }
    {
        let mut count = 0;
        for line in Lines::of(text) {
            if self.selects(line) {
                count += 1;
            }
        }
        count
    }

    /// Returns the selected lines of a text. Each follows the label and ends with a newline.
    #[tactic(auto, using(crate::proofs::SearchLemmas::labelling))]
    fn selected_text(&self, alloc: Global, label: &[u8], text: &[u8]) -> Result<Bytes, NoMem>
        ensures { IfOk result (λ out. out
            ≡ labelled_text label.now (selected_lines self.now text.now)) }
    {
        let mut out = Bytes::new(alloc);
        for line in Lines::of(text) {
            if self.selects(line) {
                out.extend(label)?;
                out.extend(line)?;
                out.extend(b"\n")?;
            }
        }
        Ok(out)
    }

    /// Returns what the search prints of the text of an operand with this label, and whether it
    /// selects a line.
    #[tactic(auto, using(crate::proofs::SearchLemmas::running))]
    pub fn run(&self, alloc: Global, label: &[u8], text: &[u8]) -> Result<Found, NoMem>
        ensures output { IfOk result (λ found. found.output
            ≡ output_of self.now label.now (selected_lines self.now text.now)) }
        ensures selected { IfOk result (λ found. found.selected
            ≡ list_any (selects self.now) (lines_in text.now)) }
    {
        if self.quiet {
            return Ok(Found {
                output: Bytes::new(alloc),
                selected: self.selects_any(text),
            });
        }
        if self.counted {
            let count = self.count(text);
            return Ok(Found {
                output: count_text(alloc, label, count)?,
                selected: count > 0,
            });
        }
        let output = self.selected_text(alloc, label, text)?;
        let selected = !output.is_empty();
        Ok(Found { output, selected })
    }

    /// Returns the status of the search: 2 after a fault, but not under `-q` if a line was
    /// selected; else 0 if a line was selected, and 1 if none was.
    pub fn status(&self, selected: bool, fault: bool) -> u8
        ensures { result ≡ search_status self.now.quiet selected fault }
    {
        if fault && !(self.quiet && selected) {
            2
        } else if selected {
            0
        } else {
            1
        }
    }
}

/// Returns the label that precedes each line of an operand's output: the operand and a colon. The
/// operand `-` is called `(standard input)`. The label is empty if there is only one operand.
pub fn label(alloc: Global, several: bool, operand: &str) -> Result<Bytes, NoMem>
    ensures { IfOk result (λ label. label ≡ label_of several operand.now) }
{
    let mut label = Bytes::new(alloc);
    if several {
        let name = if operand == "-" {
            "(standard input)"
        } else {
            operand
        };
        label.extend(name.as_bytes())?;
        label.extend(b":")?;
    }
    Ok(label)
}
