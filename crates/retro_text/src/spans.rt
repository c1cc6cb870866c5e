//! Lists of spans.
ghost use Rattle.std.specs.Prelude.{◌≡◌, IfOk, map};
ghost use Rattle.std.specs.List.{slice_split};
ghost use Rattle.retro_text.specs.Spans.{is_separator, spans_in};
ghost use Rattle.retro_text.specs.Usage.{Reads};
ghost use Rattle.retro_text.specs.inner.Rising.{AreRising, SelectAlike};

use crate::span::Span;
use crate::usage::UsageError;
use retro_path::NoMem;
use std::alloc::Global;
use std::marker::Model;

/// A list of spans, which may overlap (XCU cut, OPTIONS).
#[derive(Drop)]
pub struct Spans {
    spans: Vec<Span>,
}

impl Model for Spans {
    ghost use Rattle.std.specs.Prelude.{List};
    ghost use Rattle.retro_text.specs.declared.span.Span.{Span};

    ghost Value = { List Span };

    ghost view = { λ a. a.spans.items };
}

impl Spans {
    /// Reads a list: spans, each separated from the next by one comma, space or tab.
    ///
    /// # Errors
    ///
    /// `Usage` if the text isn't such a list.
    pub fn of(alloc: Global, list: &[u8]) -> Result<Spans, UsageError>
        ensures { Reads (λ spans. spans) result (spans_in list.now) }
    {
        let mut spans = Vec::new(alloc);
        for text in list.split(|byte| matches!(byte, b',' | b' ' | b'\t')) {
            let Some(span) = Span::of(text) else {
                return Err(UsageError::Usage);
            };
            spans.push(span)?;
        }
        Ok(Spans { spans })
    }

    /// Returns spans of the same indices, in the order of their first ones, where none begins
    /// before another's end.
    #[tactic(auto, using(crate::proofs::Rising::sorted_alike))]
    pub(crate) fn merged(&self, alloc: Global) -> Result<Vec<Span>, NoMem>
        ensures alike { IfOk result (λ merged. SelectAlike self.now merged.items) }
        ensures rising { IfOk result (λ merged. AreRising merged.items) }
    {
        let mut spans = Vec::from_slice(alloc, self.spans.as_slice())?;
        spans.sort_by_key(|span| span.first)?;
        merge(alloc, spans.as_slice())
    }
}

/// Joins each span to the one before it, if it doesn't begin after that one's end.
fn merge(alloc: Global, spans: &[Span]) -> Result<Vec<Span>, NoMem>
    requires { AreRising spans.now }
    ensures alike { IfOk result (λ merged. SelectAlike spans.now merged.items) }
    ensures rising { IfOk result (λ merged. AreRising merged.items) }
{
    let mut merged = Vec::new(alloc);
    let [first, rest @ ..] = spans else {
        return Ok(merged);
    };
    let mut current = *first;
    for span in rest {
        match current.join(*span) {
            Some(joined) => current = joined,
            None => {
                merged.push(current)?;
                current = *span;
            }
        }
    }
    merged.push(current)?;
    Ok(merged)
}
