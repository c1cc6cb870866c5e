//! Sets of numbers of lines.
ghost use Rattle.std.specs.Prelude.{◌≡◌, ◌==◌, ◌||◌, false, ℕ, List, IfOk, OnOk};
ghost use Rattle.std.specs.List.{list_any};
ghost use Rattle.casebook_view.specs.inner.Numbers.{AreNumbers, has_number};

use crate::NoMem;
use std::alloc::Global;
use std::collections::BTreeSet;

/// A set of numbers of lines.
#[derive(Drop)]
pub(crate) struct Numbers {
    numbers: BTreeSet<u32>,
}

impl Numbers {
    /// Returns no numbers. Takes no memory.
    fn new(alloc: Global) -> Numbers
        ensures { (n : ℕ) → has_number result n ≡ false }
    {
        Numbers {
            numbers: BTreeSet::new(alloc),
        }
    }

    /// Adds a number.
    fn add(&mut self, number: u32) -> Result<(), NoMem>
        ensures { OnOk result ((n : ℕ) → has_number self.new n
            ≡ (has_number self.old n || number == n)) }
    {
        self.numbers.insert(number)?;
        Ok(())
    }

    /// Returns the set of these numbers.
    pub(crate) fn of(alloc: Global, numbers: &[u32]) -> Result<Numbers, NoMem>
        ensures { IfOk result (AreNumbers numbers.now) }
    {
        let mut set = Numbers::new(alloc);
        for number in numbers {
            set.add(*number)?;
        }
        Ok(set)
    }

    /// Returns whether a number is in the set. The contract says so of all lists of which it is the
    /// set.
    pub(crate) fn has(&self, number: u32) -> bool
        ensures { (numbers : List ℕ) → AreNumbers numbers self.now
            → result ≡ list_any (λ m. m == number) numbers }
    {
        self.numbers.contains(&number)
    }
}
