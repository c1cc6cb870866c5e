//! Sets of lines that are searched by number and by session.
ghost use Rattle.std.specs.Prelude.{◌≡◌, ◌≤◌, ◌<◌, ◌&&◌, List, IfOk, false, true, not};
ghost use Rattle.std.specs.Prelude.{length, map};
ghost use Rattle.std.specs.BTreeSet.{IsFromIterResult};
ghost use Rattle.std.specs.List.{list_any};
ghost use Rattle.std.specs.Option.{IfNone, IfSome};
ghost use Rattle.casebook_text.specs.Item.{Line, is_in};
ghost use Rattle.casebook_text.specs.inner.LineSets.{AreAll, IsBoth, has_line, has_pair};
ghost use Rattle.casebook_text.specs.inner.LineSets.{pair_cmp, same_line, turned};

use crate::NoMem;
use crate::item::Lines;
use std::alloc::Global;
use std::collections::BTreeSet;

/// A set of lines, each by its number and its session.
#[derive(Drop)]
pub(crate) struct LineSet {
    /// The number and the session of each line.
    by_number: BTreeSet<(u32, u32)>,
    /// The session and the number of each line.
    by_session: BTreeSet<(u32, u32)>,
}

/// Returns the first pair of a set whose first number is one of these.
fn first_between(pairs: &BTreeSet<(u32, u32)>, first: u32, last: u32) -> Option<(u32, u32)>
    ensures found { IfSome result (λ pair.
        (has_pair pair pairs.now.keys ≡ true) × (first ≤ pair.0) × (pair.0 ≤ last)) }
    ensures none { IfNone result ((pair : Line) → first ≤ pair.0 → pair.0 ≤ last
        → has_pair pair pairs.now.keys ≡ false) }
{
    match pairs.range((first, 0)..).next() {
        Some(pair) if pair.0 <= last => Some(*pair),
        _ => None,
    }
}

/// Returns lines in order of numbers.
fn in_order(alloc: Global, lines: &[(u32, u32)]) -> Result<BTreeSet<(u32, u32)>, NoMem>
    ensures { IfOk result (IsFromIterResult pair_cmp lines.now) }
{
    lines.iter().copied().collect(alloc)
}

/// Returns lines in order of sessions, each with its session first.
fn in_order_of_sessions(alloc: Global, lines: &[(u32, u32)]) -> Result<BTreeSet<(u32, u32)>, NoMem>
    ensures { IfOk result (IsFromIterResult pair_cmp (map turned lines.now)) }
{
    lines.iter().map(|line| (line.1, line.0)).collect(alloc)
}

impl LineSet {
    /// Returns the set of some lines.
    pub(crate) fn of(alloc: Global, lines: &[(u32, u32)]) -> Result<LineSet, NoMem>
        ensures { IfOk result (AreAll lines.now) }
    {
        Ok(LineSet {
            by_number: in_order(alloc, lines)?,
            by_session: in_order_of_sessions(alloc, lines)?,
        })
    }

    /// Returns one of the lines that is named, if there is one.
    pub(crate) fn find(&self, named: Lines) -> Option<(u32, u32)>
        requires { IsBoth self.now }
        ensures found { IfSome result (λ line.
            (has_line line self.now ≡ true) × (is_in named line ≡ true)) }
        ensures none { IfNone result ((line : Line) → has_line line self.now ≡ true
            → is_in named line ≡ false) }
    {
        match named {
            Lines::One(number) => first_between(&self.by_number, number, number),
            Lines::Range(first, last) => first_between(&self.by_number, first, last),
            Lines::Session(session) => {
                let pair = first_between(&self.by_session, session, session)?;
                Some((pair.1, pair.0))
            }
        }
    }

    /// Returns whether one of the lines is named.
    pub(crate) fn has_any(&self, named: Lines) -> bool
        requires { IsBoth self.now }
        ensures { (lines : List Line) → AreAll lines self.now
            → result ≡ list_any (is_in named) lines }
    {
        self.find(named).is_some()
    }

    /// Removes a line.
    pub(crate) fn remove(&mut self, line: (u32, u32))
        requires { IsBoth self.old }
        ensures both { IsBoth self.new }
        ensures others { (other : Line) → has_line other self.new
            ≡ (has_line other self.old && not (same_line line other)) }
        ensures fewer { has_line line self.old ≡ true
            → length self.new.by_number.keys < length self.old.by_number.keys }
    {
        self.by_number.remove(&line);
        self.by_session.remove(&(line.1, line.0));
    }
}
