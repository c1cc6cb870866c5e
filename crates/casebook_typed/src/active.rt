//! Which lines are open at each observation and don't wait.
ghost use Rattle.std.specs.Prelude.{◌≡◌, ◌==◌, ◌||◌, ◌<◌, ◌≤◌, ◌++◌, [], ℕ, IfOk, OnOk};
ghost use Rattle.std.specs.Prelude.{length, nat_le, nat_lt, not};
ghost use Rattle.casebook_typed.specs.Spans.{active_at, is_active, is_start_from};
ghost use Rattle.casebook_typed.specs.inner.Lists.{list_at, span_if};

use crate::NoMem;
use crate::span::Span;
use crate::step::{Step, What};
use std::alloc::Global;

/// Returns whether a step starts a session from another one.
fn is_start_from(step: &Step, session: usize) -> bool
    ensures { result ≡ is_start_from session step.now }
{
    match step.what {
        What::Start(parent) => parent == session,
        What::Begin(_) | What::End(_) | What::Exit(_) => false,
    }
}

/// Returns the first observation after those at which a line is open, or how many there are.
fn end_of_span(steps: &[Step], span: &Span) -> usize
    ensures within { result ≤ length steps.now }
    ensures value { (at : ℕ) → at < length steps.now → nat_lt at result ≡ nat_le at span.now.until }
{
    if span.until < steps.len() {
        span.until + 1
    } else {
        steps.len()
    }
}

/// Returns whether an open line doesn't wait at an observation, by whether a session started from
/// its own before. It doesn't where it closes.
fn is_awake(span: &Span, at: usize, starts: bool) -> bool
    ensures { result ≡ (not starts || at == span.now.until) }
{
    !starts || at == span.until
}

/// Appends a line to a list, if a test of it is true.
fn push_if(list: &mut Vec<Span>, span: &Span, is_true: bool) -> Result<(), NoMem>
    ensures { OnOk result (list.new.items ≡ list.old.items ++ span_if span.now is_true) }
{
    if is_true {
        list.push(*span)?;
    }
    Ok(())
}

/// Appends a line to the lists of the observations at which it is open and doesn't wait.
fn add(lists: &mut [Vec<Span>], steps: &[Step], span: &Span) -> Result<(), NoMem>
    requires { length lists.old ≡ length steps.now }
    ensures each { OnOk result (length lists.new ≡ length steps.now) }
    ensures value { OnOk result ((at : ℕ) → at < length steps.now → list_at lists.new at
        ≡ list_at lists.old at ++ span_if span.now (is_active steps.now at span.now)) }
{
    let mut starts = false;
    for at in span.since..end_of_span(steps, span) {
        push_if(&mut lists[at], span, is_awake(span, at, starts))?;
        starts |= is_start_from(&steps[at], span.session);
    }
    Ok(())
}

/// Returns an empty list for each step.
fn empty_lists(alloc: Global, steps: &[Step]) -> Result<Vec<Vec<Span>>, NoMem>
    ensures length { IfOk result (λ lists. length lists.items ≡ length steps.now) }
    ensures empty { IfOk result (λ lists. (at : ℕ) → list_at lists.items at ≡ []) }
{
    let mut lists = Vec::with_capacity(alloc, steps.len())?;
    for _step in steps {
        lists.push(Vec::new(alloc))?;
    }
    Ok(lists)
}

/// Returns the lines that are open at each observation and don't wait.
pub(crate) fn active(alloc: Global, steps: &[Step], spans: &[Span]) -> Result<Vec<Vec<Span>>, NoMem>
    ensures length { IfOk result (λ lists. length lists.items ≡ length steps.now) }
    ensures value { IfOk result (λ lists. (at : ℕ) → at < length steps.now
        → list_at lists.items at ≡ active_at steps.now spans.now at) }
{
    let mut lists = empty_lists(alloc, steps)?;
    for span in spans {
        add(lists.as_mut_slice(), steps, span)?;
    }
    Ok(lists)
}
