//! Lines that have no record.
ghost use Rattle.std.specs.Prelude.{◌≡◌, ◌==◌, ◌-◌, ℕ, IfOk, OnOk, if◌then◌else◌};
ghost use Rattle.casebook_typed.specs.Missing.{begun_in, number_in, recorded_in};
ghost use Rattle.casebook_typed.specs.inner.Places.{number_at};

use crate::NoMem;
use crate::span::Span;
use crate::step::{Step, What};
use std::alloc::Global;
use std::collections::BTreeMap;

/// A number of lines for each session, by its place.
#[derive(Drop)]
pub(crate) struct LineCounts {
    by_place: BTreeMap<usize, usize>,
}

impl LineCounts {
    /// Returns that no session has lines. Takes no memory.
    fn new(alloc: Global) -> LineCounts
        ensures { (s : ℕ) → number_at result s ≡ 0 }
    {
        LineCounts {
            by_place: BTreeMap::new(alloc),
        }
    }

    /// Returns the number of a session's lines.
    pub(crate) fn at(&self, session: usize) -> usize
        ensures { result ≡ number_at self.now session }
    {
        match self.by_place.get(&session) {
            Some(number) => *number,
            None => 0,
        }
    }

    /// Sets the number of a session's lines.
    fn set(&mut self, session: usize, number: usize) -> Result<(), NoMem>
        ensures { OnOk result ((s : ℕ) → number_at self.new s
            ≡ (if s == session then number else number_at self.old s)) }
    {
        self.by_place.insert(session, number)?;
        Ok(())
    }
}

/// Returns the number of a line that a step names, or 0.
fn number_in(what: What) -> usize
    ensures { result ≡ number_in what }
{
    match what {
        What::Begin(number) | What::End(number) | What::Exit(number) => number as usize,
        What::Start(_) => 0,
    }
}

/// Returns how many lines began in each session, by the numbers that steps name.
fn begun(alloc: Global, steps: &[Step]) -> Result<LineCounts, NoMem>
    ensures { IfOk result (λ begun. (s : ℕ) → number_at begun s ≡ begun_in s steps.now) }
{
    let mut begun = LineCounts::new(alloc);
    for step in steps {
        let number = begun.at(step.session).max(number_in(step.what));
        begun.set(step.session, number)?;
    }
    Ok(begun)
}

/// Returns how many lines of each session have no record, by the lines that have one.
pub(crate) fn missing(alloc: Global, steps: &[Step], spans: &[Span]) -> Result<LineCounts, NoMem>
    ensures { IfOk result (λ missing. (s : ℕ) → number_at missing s
        ≡ begun_in s steps.now - recorded_in s spans.now) }
{
    let mut missing = begun(alloc, steps)?;
    for span in spans {
        let number = missing.at(span.session).saturating_sub(1);
        missing.set(span.session, number)?;
    }
    Ok(missing)
}
