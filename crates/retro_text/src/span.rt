//! Spans of positions.
ghost use Rattle.std.specs.Prelude.{◌≡◌, ◌==◌, ◌||◌, ◌≤◌, ℕ, IfSome, position};
ghost use Rattle.retro_text.specs.Ascii.{dash};
ghost use Rattle.retro_text.specs.Spans.{contains, is_up_to, index_in, span_between, span_in};

use crate::number::number_of;

/// The greatest number of digits in a position.
const MAX_DIGITS: usize = 9;

/// The indices from `first` to `last`, both included, or all from `first` if there is no `last`.
/// Indices are counted from 0.
#[derive(Clone, Copy, Debug, PartialEq, Eq)]
pub struct Span {
    pub first: u32,
    pub last: Option<u32>,
}

/// Returns the index of the position that one to nine digits write, or `None` if the text isn't
/// such digits or the position is 0.
#[tactic(auto, unfolding(crate::specs::Spans::index_in), using(crate::proofs::NumberLemmas::not_utf8))]
fn index_of(text: &[u8]) -> Option<u32>
    ensures { result ≡ index_in text.now }
{
    if text.len() > MAX_DIGITS {
        return None;
    }
    number_of(str::from_utf8(text).ok()?)?.checked_sub(1)
}

/// Returns the span of the texts before and after a dash, or `None` if they make none.
#[tactic(auto, unfolding(crate::specs::Spans::span_between))]
fn span_between(from: &[u8], to: &[u8]) -> Option<Span>
    ensures { result ≡ span_between from.now to.now }
{
    match (from, to) {
        ([], []) => None,
        ([], _) => Some(Span {
            first: 0,
            last: Some(index_of(to)?),
        }),
        (_, []) => Some(Span {
            first: index_of(from)?,
            last: None,
        }),
        _ => {
            let first = index_of(from)?;
            let last = index_of(to)?;
            if first <= last {
                Some(Span {
                    first,
                    last: Some(last),
                })
            } else {
                None
            }
        }
    }
}

/// Returns the index of the first dash in a text, or `None` if it has none.
fn dash_in(text: &[u8]) -> Option<usize>
    ensures { result ≡ position (λ b. b == dash) text.now }
{
    text.iter().position(|byte| *byte == b'-')
}

impl Span {
    /// Reads a span that is written as `N`, `N-M`, `N-` or `-M`. `N` and `M` are positions, counted
    /// from 1, of one to nine digits, and `N` is at most `M`. Returns `None` for another text.
    #[tactic(auto, unfolding(crate::specs::Spans::span_in))]
    pub(crate) fn of(text: &[u8]) -> Option<Span>
        ensures { result ≡ span_in text.now }
    {
        match dash_in(text) {
            None => {
                let index = index_of(text)?;
                Some(Span {
                    first: index,
                    last: Some(index),
                })
            }
            Some(dash) => span_between(&text[..dash], &text[dash + 1..]),
        }
    }

    /// Returns whether the span has an index.
    pub fn contains(self, index: usize) -> bool
        ensures { result ≡ contains self index }
    {
        self.first as usize <= index && self.reaches(index)
    }

    /// Returns whether the span doesn't end before an index.
    pub(crate) fn reaches(self, index: usize) -> bool
        ensures { result ≡ is_up_to self.last index }
    {
        match self.last {
            None => true,
            Some(last) => index <= last as usize,
        }
    }

    /// Returns which of two spans reaches further.
    pub(crate) fn further(self, other: Span) -> Span
        ensures { (index : ℕ) → is_up_to result.last index
            ≡ (is_up_to self.last index || is_up_to other.last index) }
    {
        match (self.last, other.last) {
            (None, _) => self,
            (Some(_), None) => other,
            (Some(last), Some(limit)) if last < limit => other,
            (Some(_), Some(_)) => self,
        }
    }

    /// Returns the span of the indices of this one and of the next one, or `None` if the next one
    /// begins after this one's end.
    #[tactic(auto, using(crate::proofs::Merging::joins))]
    pub(crate) fn join(self, next: Span) -> Option<Span>
        requires { self.first ≤ next.first }
        ensures first { IfSome result (λ joined. joined.first ≡ self.first) }
        ensures indices { IfSome result (λ joined. (index : ℕ)
            → contains joined index ≡ (contains self index || contains next index)) }
    {
        if self.reaches(next.first as usize) {
            Some(Span {
                first: self.first,
                last: self.further(next).last,
            })
        } else {
            None
        }
    }
}
