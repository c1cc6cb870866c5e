//! Between which bounds the lines are that are shown.
ghost use Rattle.std.specs.Prelude.{◌≡◌, option_and_then};
ghost use Rattle.casebook_request.specs.Bounds.{has_times, is_between, line_of, second_of};

use crate::bound::Bound;

/// Between which bounds the lines are that are shown. A bound that isn't given is `None`.
#[derive(Clone, Copy, Debug, Drop, PartialEq, Eq)]
pub struct Bounds {
    /// The first line, or when it was typed.
    pub from: Option<Bound>,
    /// The last line, or when it was typed.
    pub to: Option<Bound>,
}

/// Returns the number of the line that is a bound.
fn line_of(bound: Option<Bound>) -> Option<u32>
    ensures { result ≡ option_and_then line_of bound }
{
    match bound {
        Some(Bound::Line(number)) => Some(number),
        _ => None,
    }
}

/// Returns the second that is a bound.
fn second_of(bound: Option<Bound>) -> Option<i64>
    ensures { result ≡ option_and_then second_of bound }
{
    match bound {
        Some(Bound::Second(second)) => Some(second),
        _ => None,
    }
}

impl Bounds {
    /// Returns the number of the first line, if that bound is a line.
    pub fn first_line(&self) -> Option<u32>
        ensures { result ≡ option_and_then line_of self.now.from }
    {
        line_of(self.from)
    }

    /// Returns the number of the last line, if that bound is a line.
    pub fn last_line(&self) -> Option<u32>
        ensures { result ≡ option_and_then line_of self.now.to }
    {
        line_of(self.to)
    }

    /// Returns whether one of the bounds is a time.
    pub fn has_times(&self) -> bool
        ensures { result ≡ has_times self.now }
    {
        second_of(self.from).is_some() || second_of(self.to).is_some()
    }

    /// Returns whether a second is between the times among the bounds.
    pub fn contains(&self, second: i64) -> bool
        ensures { result ≡ is_between self.now second }
    {
        let is_from = match second_of(self.from) {
            Some(first) => first <= second,
            None => true,
        };
        let is_to = match second_of(self.to) {
            Some(last) => second <= last,
            None => true,
        };
        is_from && is_to
    }
}
