//! The lines of one observation.
ghost use Rattle.std.specs.Prelude.{◌≡◌, ◌++◌, IfOk, OnOk, Some, map, option_map};
ghost use Rattle.std.specs.List.{find};
ghost use Rattle.casebook_typed.specs.Lines.{begun_line, closes, is_nothing, is_unchanged};
ghost use Rattle.casebook_typed.specs.Lines.{lines_at, lines_by, name_of, nobodys_in, nothing_seen};
ghost use Rattle.casebook_typed.specs.Lines.{overlapping_in, parts_in, text_at, text_of, whole_line};
ghost use Rattle.casebook_typed.specs.Seeing.{said};
ghost use Rattle.casebook_typed.specs.Values.{line_value, seen_value};

use crate::NoMem;
use crate::line::{Extent, LineName, Owner, TypedLine};
use crate::observation::Observation;
use crate::seen::Seen;
use crate::span::Span;
use casebook_record::{Event, Record};
use retro_path::Bytes;
use std::alloc::Global;

/// Returns the text that an event has of a line, unless it is hidden.
fn text_of(event: &Event) -> Option<&Bytes>
    ensures { option_map (λ text. text.now) result ≡ text_of event.now }
{
    match event {
        Event::Begin(begin) => begin.line.as_ref(),
        Event::End(end) => end.line.as_ref(),
        Event::Start(_) => None,
        Event::Exit(_) => None,
    }
}

/// Returns whether nothing was changed, read or listed.
#[tactic(auto, using(crate::proofs::Lines::nothing_in))]
fn is_nothing(seen: &Seen<'_>) -> bool
    ensures { result ≡ is_nothing (seen_value seen.now) }
{
    seen.changes.is_empty() && seen.read.is_empty() && seen.listed.is_empty()
}

/// Returns whether nothing was changed.
#[tactic(auto, using(crate::proofs::Lines::unchanged_in))]
fn is_unchanged(seen: &Seen<'_>) -> bool
    ensures { result ≡ is_unchanged (seen_value seen.now) }
{
    seen.changes.is_empty()
}

/// Returns that nothing was seen. Takes no memory.
fn nothing_seen<'a>(alloc: Global) -> Seen<'a>
    ensures { seen_value result ≡ nothing_seen }
{
    Seen {
        changes: Vec::new(alloc),
        read: Vec::new(alloc),
        listed: Vec::new(alloc),
    }
}

/// Returns the name of a line.
fn name_of(span: &Span) -> LineName
    ensures { result ≡ name_of span.now }
{
    LineName {
        session: span.session,
        number: span.number,
    }
}

/// Returns whether a line closes at an observation, by its end or without one.
fn closes(span: &Span, at: usize, is_ended: bool) -> bool
    ensures { result ≡ closes at is_ended span.now }
{
    if span.until != at {
        return false;
    }
    if is_ended {
        span.is_ended
    } else {
        !span.is_ended
    }
}

/// Returns the first line that closes at an observation, by its end or without one.
fn closing(active: &[Span], at: usize, is_ended: bool) -> Option<Span>
    ensures { result ≡ find (closes at is_ended) active.now }
{
    for span in active {
        if closes(span, at, is_ended) {
            return Some(*span);
        }
    }
    None
}

/// Returns the names of lines.
fn names_of(alloc: Global, active: &[Span]) -> Result<Vec<LineName>, NoMem>
    ensures { IfOk result (λ names. names.items ≡ map name_of active.now) }
{
    let mut names = Vec::with_capacity(alloc, active.len())?;
    for span in active {
        names.push(name_of(span))?;
    }
    Ok(names)
}

/// An observation, among all of them.
#[derive(Clone, Copy, Drop)]
pub(crate) struct Moment<'o, 'a> {
    /// All observations.
    pub observations: &'o [Observation<'a>],
    /// The place of this one.
    pub at: usize,
    /// Its record.
    pub record: &'a Record,
    /// The lines that are open and don't wait.
    pub active: &'o [Span],
}

impl<'o, 'a> Moment<'o, 'a> {
    /// Returns the lines that may have done what was seen, if there are two or more.
    fn overlapping(&self, alloc: Global, seen: &Seen<'_>) -> Result<Vec<LineName>, NoMem>
        ensures { IfOk result (λ names. names.items
            ≡ overlapping_in self.now.active.now (seen_value seen.now)) }
    {
        if is_nothing(seen) || self.active.len() < 2 {
            Ok(Vec::new(alloc))
        } else {
            names_of(alloc, self.active)
        }
    }

    /// Returns the text of the record of an observation.
    #[tactic(auto, using(crate::proofs::Lines::text_there, crate::proofs::Lines::no_text_there))]
    fn text_at(&self, at: usize) -> Option<&'a Bytes>
        ensures { option_map (λ text. text.now) result
            ≡ text_at (map said self.now.observations.now) at }
    {
        if at < self.observations.len() {
            let record = self.observations[at].record;
            text_of(&record.event)
        } else {
            None
        }
    }

    /// Returns a line that ended here.
    fn whole(&self, span: &Span, seen: Seen<'a>, overlapping: Vec<LineName>) -> TypedLine<'a>
        ensures { line_value result
            ≡ whole_line self.now.record.now span.now (seen_value seen.entry) overlapping.items }
    {
        TypedLine {
            owner: Owner::Line(name_of(span)),
            extent: Extent::Whole,
            shown: self.record,
            text: text_of(&self.record.event),
            seen,
            overlapping,
        }
    }

    /// Returns a line that hasn't ended, or was cut off.
    fn begun(
        &self,
        extent: Extent,
        span: &Span,
        seen: Seen<'a>,
        overlapping: Vec<LineName>,
    ) -> TypedLine<'a>
        ensures { line_value result ≡ begun_line (map said self.now.observations.now)
            self.now.record.now extent span.now (seen_value seen.entry) overlapping.items }
    {
        TypedLine {
            owner: Owner::Line(name_of(span)),
            extent,
            shown: self.record,
            text: self.text_at(span.shown),
            seen,
            overlapping,
        }
    }

    /// Appends the line of what was changed while no line was active, if something was.
    fn push_nobodys(
        &self,
        alloc: Global,
        lines: &mut Vec<TypedLine<'a>>,
        seen: Seen<'a>,
    ) -> Result<(), NoMem>
        ensures { OnOk result (map line_value lines.new.items ≡ map line_value lines.old.items
            ++ nobodys_in self.now.record.now (seen_value seen.entry)) }
    {
        if is_unchanged(&seen) {
            return Ok(());
        }
        lines.push(TypedLine {
            owner: Owner::Nobody,
            extent: Extent::Part,
            shown: self.record,
            text: None,
            seen: Seen {
                changes: seen.changes,
                read: Vec::new(alloc),
                listed: Vec::new(alloc),
            },
            overlapping: Vec::new(alloc),
        })?;
        Ok(())
    }

    /// Appends the line of what was seen while no line closed, if something was.
    fn push_part(
        &self,
        alloc: Global,
        lines: &mut Vec<TypedLine<'a>>,
        seen: Seen<'a>,
    ) -> Result<(), NoMem>
        ensures { OnOk result (map line_value lines.new.items ≡ map line_value lines.old.items
            ++ parts_in (map said self.now.observations.now) self.now.record.now
            self.now.active.now (seen_value seen.entry)) }
    {
        match self.active {
            [] => self.push_nobodys(alloc, lines, seen),
            [span, ..] => {
                if is_nothing(&seen) {
                    return Ok(());
                }
                let overlapping = self.overlapping(alloc, &seen)?;
                lines.push(self.begun(Extent::Part, span, seen, overlapping))?;
                Ok(())
            }
        }
    }

    /// Appends the line that was cut off here, and the one that ended.
    fn push_both(
        &self,
        alloc: Global,
        lines: &mut Vec<TypedLine<'a>>,
        seen: Seen<'a>,
        closing: (Span, Span),
    ) -> Result<(), NoMem>
        ensures { OnOk result (map line_value lines.new.items ≡ map line_value lines.old.items
            ++ lines_by (map said self.now.observations.now) self.now.record.now self.now.active.now
            (seen_value seen.entry) (Some closing.0) (Some closing.1)) }
    {
        let first = self.overlapping(alloc, &seen)?;
        let second = self.overlapping(alloc, &seen)?;
        let nothing = nothing_seen(alloc);
        if self.active.len() == 2 {
            lines.push(self.begun(Extent::CutOff, &closing.0, seen, first))?;
            lines.push(self.whole(&closing.1, nothing, second))?;
        } else {
            lines.push(self.begun(Extent::CutOff, &closing.0, nothing, first))?;
            lines.push(self.whole(&closing.1, seen, second))?;
        }
        Ok(())
    }

    /// Appends the lines of the observation.
    pub(crate) fn push_lines(
        &self,
        alloc: Global,
        lines: &mut Vec<TypedLine<'a>>,
        seen: Seen<'a>,
    ) -> Result<(), NoMem>
        ensures { OnOk result (map line_value lines.new.items ≡ map line_value lines.old.items
            ++ lines_at (map said self.now.observations.now) self.now.at self.now.record.now
            self.now.active.now (seen_value seen.entry)) }
    {
        let cut = closing(self.active, self.at, false);
        let ended = closing(self.active, self.at, true);
        match (cut, ended) {
            (Some(cut), Some(ended)) => self.push_both(alloc, lines, seen, (cut, ended)),
            (Some(cut), None) => {
                let overlapping = self.overlapping(alloc, &seen)?;
                lines.push(self.begun(Extent::CutOff, &cut, seen, overlapping))?;
                Ok(())
            }
            (None, Some(ended)) => {
                let overlapping = self.overlapping(alloc, &seen)?;
                lines.push(self.whole(&ended, seen, overlapping))?;
                Ok(())
            }
            (None, None) => self.push_part(alloc, lines, seen),
        }
    }
}
