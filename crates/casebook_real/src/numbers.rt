//! Sets of numbers of lines.
ghost use Rattle.std.specs.Prelude.{◌≡◌, ◌==◌, ◌||◌, false, ℕ, IfOk, OnOk};
ghost use Rattle.std.specs.List.{list_any};
ghost use Rattle.casebook_real.specs.inner.Numbers.{AreNumbers, has_number};

use crate::NoMem;
use std::alloc::Global;
use std::collections::BTreeSet;

/// A set of numbers of lines.
#[derive(Drop)]
pub(crate) struct Numbers {
    numbers: BTreeSet<u32>,
}

impl Numbers {
    /// Returns no numbers. Takes no memory.
    fn new(alloc: Global) -> Numbers
        ensures { (n : ℕ) → has_number result n ≡ false }
    {
        Numbers {
            numbers: BTreeSet::new(alloc),
        }
    }

    /// Adds a number.
    fn add(&mut self, number: u32) -> Result<(), NoMem>
        ensures { OnOk result ((n : ℕ) → has_number self.new n
            ≡ (has_number self.old n || number == n)) }
    {
        self.numbers.insert(number)?;
        Ok(())
    }

    /// Returns the set of these numbers.
    pub(crate) fn of(alloc: Global, numbers: &[u32]) -> Result<Numbers, NoMem>
        ensures { IfOk result (AreNumbers numbers.now) }
    {
        let mut set = Numbers::new(alloc);
        for number in numbers {
            set.add(*number)?;
        }
        Ok(set)
    }

    /// Returns whether a number is in the set.
    pub(crate) fn has(&self, number: u32) -> bool
        ensures { result ≡ has_number self.now number }
    {
        self.numbers.contains(&number)
    }
}
