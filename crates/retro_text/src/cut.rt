//! `cut` (XCU cut).
ghost use Rattle.std.specs.Prelude.{◌≡◌, ◌==◌, ◌++◌, ◌∷◌, [], IfOk, OnOk};
ghost use Rattle.std.specs.List.{slice_split, join_with_byte};
ghost use Rattle.std.specs.Option.{option_copied};
ghost use Rattle.retro_path.specs.Ascii.{newline};
ghost use Rattle.retro_text.specs.Cut.{cut_in, cut_text, line_text, delimiter_in};
ghost use Rattle.retro_text.specs.Cut.{selected_items, separated};
ghost use Rattle.retro_text.specs.Usage.{Reads};
ghost use Rattle.retro_text.specs.inner.Rising.{AreRising, SelectAlike, spans_of};

use crate::lines::Lines;
use crate::request::Request;
use crate::span::Span;
use crate::spans::Spans;
use crate::sweep::Sweep;
use crate::usage::UsageError;
use retro_path::{Bytes, NoMem};
use std::alloc::Global;

/// The byte that separates fields if no other is given.
const TAB: u8 = b'\t';

/// The byte that ends a line.
const NEWLINE: u8 = b'\n';

/// What `cut` leaves of each line.
#[derive(Drop)]
pub enum Cut {
    /// The bytes that the spans select.
    Bytes(Spans),
    /// The fields that the spans select.
    Fields {
        spans: Spans,
        /// The byte that separates fields.
        delimiter: u8,
        /// Whether lines without the delimiter are dropped. Otherwise they are left whole.
        only_delimited: bool,
    },
}

/// Returns the byte of the option `-d`, or `None` if its argument isn't one byte or is a newline.
fn delimiter_of(argument: Option<&[u8]>) -> Option<u8>
    ensures { result ≡ delimiter_in (option_copied argument.entry) }
{
    match argument {
        None => Some(TAB),
        Some([NEWLINE]) => None,
        Some([byte]) => Some(*byte),
        Some(_) => None,
    }
}

/// Appends the bytes of a line that the spans select, and a newline.
#[tactic(auto, using(crate::proofs::Selecting::selects))]
fn push_bytes(out: &mut Vec<u8>, spans: &[Span], line: &[u8]) -> Result<(), NoMem>
    requires { AreRising spans.now }
    ensures { OnOk result (out.new.items
        ≡ out.old.items ++ (selected_items spans.now line.now ++ newline ∷ [])) }
{
    let mut sweep = Sweep::new(spans);
    for (index, byte) in line.iter().enumerate() {
        if sweep.has(index) {
            out.push(*byte)?;
        }
    }
    out.push(NEWLINE)?;
    Ok(())
}

/// Appends a field, after a delimiter if it isn't the first one.
fn push_field(out: &mut Vec<u8>, delimiter: u8, is_first: bool, field: &[u8]) -> Result<(), NoMem>
    ensures { OnOk result (out.new.items
        ≡ out.old.items ++ separated delimiter is_first field.now) }
{
    if !is_first {
        out.push(delimiter)?;
    }
    out.extend_from_slice(field)
}

/// Appends the fields of a line that the spans select, with the delimiter between each two, and a
/// newline.
fn push_fields(out: &mut Vec<u8>, spans: &[Span], delimiter: u8, line: &[u8]) -> Result<(), NoMem>
    requires { AreRising spans.now }
    ensures { OnOk result (out.new.items ≡ out.old.items ++ (join_with_byte delimiter
        (selected_items spans.now (slice_split (λ b. b == delimiter) line.now)) ++ newline ∷ [])) }
{
    let mut sweep = Sweep::new(spans);
    let mut is_first = true;
    for (index, field) in line.split(|byte| *byte == delimiter).enumerate() {
        if sweep.has(index) {
            push_field(out, delimiter, is_first, field)?;
            is_first = false;
        }
    }
    out.push(NEWLINE)?;
    Ok(())
}

/// Appends a line and a newline.
fn push_whole(out: &mut Vec<u8>, line: &[u8]) -> Result<(), NoMem>
    ensures { OnOk result (out.new.items ≡ out.old.items ++ (line.now ++ newline ∷ [])) }
{
    out.extend_from_slice(line)?;
    out.push(NEWLINE)?;
    Ok(())
}

impl Cut {
    /// Returns what the options of `cut` ask for: `-b list`, or `-f list` with `-d` and `-s`.
    ///
    /// # Errors
    ///
    /// `Usage` if the options aren't one of these forms, the list isn't a list of spans, or the
    /// delimiter isn't one byte or is a newline.
    #[tactic(auto, unfolding(crate::specs::Cut::cut_in))]
    pub fn of(alloc: Global, request: &Request) -> Result<Cut, UsageError>
        ensures { Reads (λ cut. cut) result (cut_in request.now.options) }
    {
        let only_delimited = request.has(b's');
        let delimiter = request.argument(b'd');
        match (request.argument(b'b'), request.argument(b'f')) {
            (Some(list), None) if delimiter.is_none() && !only_delimited => {
                Ok(Cut::Bytes(Spans::of(alloc, list)?))
            }
            (None, Some(list)) => Ok(Cut::Fields {
                spans: Spans::of(alloc, list)?,
                delimiter: delimiter_of(delimiter).ok_or(UsageError::Usage)?,
                only_delimited,
            }),
            _ => Err(UsageError::Usage),
        }
    }

    /// Returns the spans as they were written.
    fn spans(&self) -> &Spans
        ensures { result.now ≡ spans_of self.now }
    {
        match self {
            Cut::Bytes(spans) | Cut::Fields { spans, .. } => spans,
        }
    }

    /// Appends what is left of a line and a newline, or nothing if the line is dropped. The spans
    /// have the indices of those of this value, and are in the order of their first ones.
    fn push_line(&self, out: &mut Vec<u8>, spans: &[Span], line: &[u8]) -> Result<(), NoMem>
        requires rising { AreRising spans.now }
        requires alike { SelectAlike (spans_of self.now) spans.now }
        ensures { OnOk result (out.new.items ≡ out.old.items ++ line_text self.now line.now) }
    {
        match self {
            Cut::Bytes(_) => push_bytes(out, spans, line),
            Cut::Fields {
                delimiter,
                only_delimited,
                ..
            } => {
                if line.contains(delimiter) {
                    push_fields(out, spans, *delimiter, line)
                } else if *only_delimited {
                    Ok(())
                } else {
                    push_whole(out, line)
                }
            }
        }
    }

    /// Returns what is left of a text: for each line that isn't dropped, what is left of it and a
    /// newline.
    ///
    /// Sorts and merges the spans once. Otherwise it takes time in proportion to the text, whatever
    /// their number.
    #[tactic(auto, using(crate::proofs::CutLemmas::more_lines))]
    pub fn text(&self, alloc: Global, text: &[u8]) -> Result<Bytes, NoMem>
        ensures { IfOk result (λ out. out ≡ cut_text self.now text.now) }
    {
        let spans = self.spans().merged(alloc)?;
        let mut out = Vec::new(alloc);
        for line in Lines::of(text) {
            self.push_line(&mut out, spans.as_slice(), line)?;
        }
        Ok(Bytes::of(out))
    }
}
