//! When lines are open.
ghost use Rattle.std.specs.Prelude.{◌≡◌, ◌+◌, ◌<◌, ◌^◌, IfOk};
ghost use Rattle.casebook_typed.specs.Spans.{begun_span, lone_end, span_by};
ghost use Rattle.casebook_typed.specs.Spans.{spans_of};
ghost use Rattle.casebook_typed.specs.inner.Places.{AreMarks};

use crate::NoMem;
use crate::marks::Marks;
use crate::step::{Step, What};
use std::alloc::Global;

/// When a line is open. Observations are named by their places in the spool, counted from 0.
#[derive(Clone, Copy, Debug, Drop, PartialEq, Eq)]
pub struct Span {
    /// The place of its session.
    pub session: usize,
    /// Its number in the session.
    pub number: u32,
    /// The observation that shows it first: its beginning, or its end if that is missing.
    pub shown: usize,
    /// The first observation at which it is open.
    pub since: usize,
    /// The last observation at which it is open. That is where it closes.
    pub until: usize,
    /// Whether it closes by its end. Otherwise it was cut off.
    pub is_ended: bool,
}

/// Returns when a line is open that began at an observation, by where it ends.
fn begun(session: usize, number: u32, at: usize, end: Option<usize>) -> Span
    requires { at + 1 < 2 ^ 64 }
    ensures { result ≡ begun_span session number at end }
{
    Span {
        session,
        number,
        shown: at,
        since: at + 1,
        until: end.unwrap_or(at + 1),
        is_ended: end.is_some(),
    }
}

/// Returns when a line is open that has an end and no beginning.
fn lone(session: usize, number: u32, at: usize) -> Span
    ensures { result ≡ lone_end session number at }
{
    Span {
        session,
        number,
        shown: at,
        since: at,
        until: at,
        is_ended: true,
    }
}

/// Returns the line that a step shows first, if there is one.
fn shown(marks: &Marks, steps: &[Step], at: usize, step: Step) -> Option<Span>
    requires marks { AreMarks marks.now steps.now }
    requires fits { at + 1 < 2 ^ 64 }
    ensures { result ≡ span_by steps.now at step.session step.what }
{
    let session = step.session;
    match step.what {
        What::Begin(number) => { Some(begun(session, number, at, marks.ends.get(session, number))) }
        What::End(number) if marks.begins.get(session, number).is_none() => {
            Some(lone(session, number, at))
        }
        What::Start(_) | What::End(_) | What::Exit(_) => None,
    }
}

/// Returns the lines of steps, in the order of the steps that show them first.
pub(crate) fn spans(alloc: Global, marks: &Marks, steps: &[Step]) -> Result<Vec<Span>, NoMem>
    requires { AreMarks marks.now steps.now }
    ensures { IfOk result (λ spans. spans.items ≡ spans_of steps.now) }
{
    let mut spans = Vec::new(alloc);
    for (at, step) in steps.iter().enumerate() {
        if let Some(span) = shown(marks, steps, at, *step) {
            spans.push(span)?;
        }
    }
    Ok(spans)
}
