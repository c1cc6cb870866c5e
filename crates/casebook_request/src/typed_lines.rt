//! Which lines were typed between bounds.
ghost use Rattle.std.specs.Prelude.{◌≡◌, IfOk, OnErr, OnOk, map as map_list};
ghost use Rattle.std.specs.FinMap as map;
ghost use Rattle.std.specs.Option.{option_copied};
ghost use Rattle.casebook_about.specs.Rows.{time_view};
ghost use Rattle.casebook_request.specs.Bounds.{is_between, is_typed, typed_lines, with_time};

use crate::NoMem;
use crate::bounds::Bounds;
use casebook_about::LineTime;
use std::alloc::Global;
use std::collections::BTreeMap;
use std::marker::Model;

/// Whether lines were typed between bounds, by their numbers. Of several times of a line the last
/// one counts, which is also the one that is shown.
#[derive(Drop)]
pub struct TypedLines {
    between: BTreeMap<u32, bool>,
}

impl Model for TypedLines {
    ghost use Rattle.std.specs.Prelude.{Bool};
    ghost use Rattle.std.specs.FinMap as map;
    ghost use Rattle.std.specs.Coded.{coded_bool, coded_ℕ};
    ghost use Rattle.std.specs.Ordering.{nat_cmp};

    ghost Value = { map.FinMap nat_cmp Bool };

    ghost coded = { map.code coded_ℕ coded_bool };

    ghost view = { λ a. map.from_entries a.between.entries };
}

/// Returns whether a time is between bounds.
fn is_between(time: LineTime, bounds: Bounds) -> bool
    ensures { result ≡ is_between bounds (time_view time).1 }
{
    bounds.contains(time.second)
}

impl TypedLines {
    /// Returns no lines. Takes no memory.
    fn new(alloc: Global) -> TypedLines
        ensures { result ≡ map.empty }
    {
        TypedLines {
            between: BTreeMap::new(alloc),
        }
    }

    /// Adds a line with its time, in place of the one that it has.
    fn insert(&mut self, time: LineTime, bounds: Bounds) -> Result<(), NoMem>
        ensures ok { OnOk result (self.new ≡ with_time bounds self.old (time_view time)) }
        ensures err { OnErr result (self.new ≡ self.old) }
    {
        let is_between = is_between(time, bounds);
        self.between.insert(time.number, is_between)?;
        Ok(())
    }

    /// Returns the lines with these times.
    pub fn of(alloc: Global, times: &[LineTime], bounds: Bounds) -> Result<TypedLines, NoMem>
        ensures { IfOk result (λ found.
            found ≡ typed_lines bounds (map_list time_view times.now)) }
    {
        let mut found = TypedLines::new(alloc);
        for time in times {
            found.insert(*time, bounds)?;
        }
        Ok(found)
    }

    /// Returns whether the line with a number was typed between the bounds, or `None` if it has no
    /// time.
    fn get(&self, number: u32) -> Option<&bool>
        ensures { option_copied result ≡ map.get self.now number }
    {
        self.between.get(&number)
    }

    /// Returns whether the line with a number has a time, and was typed between the bounds.
    pub fn contains(&self, number: u32) -> bool
        ensures { result ≡ is_typed self.now number }
    {
        match self.get(number) {
            Some(is_between) => *is_between,
            None => false,
        }
    }
}
