//! Rising lists of line numbers.
ghost use Rattle.std.specs.Prelude.{◌≡◌, [], OnOk, OnErr, IsTrue};
ghost use Rattle.retro_history.specs.inner.Numbers.{are_below, rise, with_number};

use retro_tree::NoMem;
use std::alloc::Global;
use std::marker::Model;

/// Line numbers in rising order, each once.
#[derive(Drop)]
pub(crate) struct LineNumbers {
    numbers: Vec<u32>,
}

impl Model for LineNumbers {
    ghost use Rattle.std.specs.Prelude.{List, ℕ, IsTrue};
    ghost use Rattle.retro_history.specs.inner.Numbers.{rise};

    ghost Value = { List ℕ };

    ghost view = { λ a. a.numbers.items };

    ghost invariant = { λ a. IsTrue (rise a.numbers.items) };
}

impl LineNumbers {
    /// Returns an empty list. Takes no memory.
    pub(crate) fn new(alloc: Global) -> LineNumbers
        ensures { result ≡ [] }
    {
        LineNumbers {
            numbers: Vec::new(alloc),
        }
    }

    /// Returns the numbers as a slice.
    pub(crate) fn as_slice(&self) -> &[u32]
        ensures value { result.now ≡ self.now }
        ensures rise { IsTrue (rise self.now) }
    {
        self.numbers.as_slice()
    }

    /// Appends a number if it is above all others, and otherwise changes nothing. Lines are added
    /// in rising order, so a line that is added twice is kept once.
    pub(crate) fn add(&mut self, number: u32) -> Result<(), NoMem>
        ensures ok { OnOk result (self.new ≡ with_number number self.old) }
        ensures err { OnErr result (self.new ≡ self.old) }
    {
        if self.are_below(number) {
            self.numbers.push(number)?;
        }
        Ok(())
    }

    /// Returns whether all numbers are below another. Compares it with the last one alone.
    fn are_below(&self, number: u32) -> bool
        ensures { result ≡ are_below number self.now }
    {
        match self.numbers.last() {
            Some(last) => *last < number,
            None => true,
        }
    }
}
