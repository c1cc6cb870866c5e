//! Which of rising indices spans have.
ghost use Rattle.std.specs.Prelude.{◌≡◌, ◌+◌, ◌≤◌, ◌∷◌, ℕ, List, None};
ghost use Rattle.retro_text.specs.declared.span.Span.{Span};
ghost use Rattle.retro_text.specs.Spans.{any_contains};
ghost use Rattle.retro_text.specs.inner.Rising.{AreRising, Covers, reaches};

use crate::span::Span;

/// Says of rising indices whether a span has them. Takes time in proportion to the number of spans
/// and of indices.
#[derive(Drop)]
pub(crate) struct Sweep<'a> {
    /// Of the spans that begin at or before the last index, one that reaches furthest.
    furthest: Option<Span>,
    /// The other spans, in the order of their first indices.
    rest: &'a [Span],
}

impl<'a> Sweep<'a> {
    /// Starts before the first index of spans that are in the order of their first indices.
    #[tactic(auto, unfolding(crate::specs::inner::Rising::Covers))]
    pub(crate) fn new(spans: &'a [Span]) -> Sweep<'a>
        requires { AreRising spans.now }
        ensures { Covers spans.now 0 result.furthest result.rest.now }
    {
        Sweep {
            furthest: None,
            rest: spans,
        }
    }

    /// Takes the next span, which begins at or before the index that is asked for.
    fn take(&mut self, span: Span, rest: &'a [Span])
        ensures rest { self.new.rest.now ≡ rest.now }
        ensures covers { (spans : List Span) (index : ℕ) → span.first ≤ index
            → Covers spans index self.old.furthest (span ∷ rest.now)
            → Covers spans index self.new.furthest self.new.rest.now }
    {
        self.furthest = match self.furthest {
            None => Some(span),
            Some(furthest) => Some(furthest.further(span)),
        };
        self.rest = rest;
    }

    /// Takes the spans that begin at or before an index.
    fn advance(&mut self, index: usize)
        ensures { (spans : List Span) → Covers spans index self.old.furthest self.old.rest.now
            → (reaches self.new.furthest index ≡ any_contains spans index)
            × Covers spans (index + 1) self.new.furthest self.new.rest.now }
    {
        while let [span, rest @ ..] = self.rest {
            if span.first as usize > index {
                break;
            }
            self.take(*span, rest);
        }
    }

    /// Returns whether a span has an index, which isn't below the one that was asked for last.
    pub(crate) fn has(&mut self, index: usize) -> bool
        ensures { (spans : List Span) → Covers spans index self.old.furthest self.old.rest.now
            → (result ≡ any_contains spans index)
            × Covers spans (index + 1) self.new.furthest self.new.rest.now }
    {
        self.advance(index);
        match self.furthest {
            None => false,
            Some(span) => span.reaches(index),
        }
    }
}
