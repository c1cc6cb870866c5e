//! The attempts of a round.
ghost use Rattle.std.specs.Prelude.{◌≡◌, [], length};
ghost use Rattle.retro_rounds.specs.inner.Attempts.{ArePassed, IsTaken, IsTakenBelow};

use crate::attempt::Attempt;
use std::alloc::Global;
use std::collections::VecDeque;

/// The attempts that wait for the turns of their lines, in order.
#[derive(Drop)]
pub(crate) struct Attempts {
    queue: VecDeque<Attempt>,
}

impl Attempts {
    /// Returns no attempts.
    pub(crate) fn none(alloc: Global) -> Attempts
        ensures { result.queue.items ≡ [] }
    {
        Attempts {
            queue: VecDeque::new(alloc),
        }
    }

    /// Returns these attempts. Takes no memory.
    pub(crate) fn of(attempts: Vec<Attempt>) -> Attempts
        ensures { result.queue.items ≡ attempts.items }
    {
        Attempts {
            queue: VecDeque::from(attempts),
        }
    }

    /// Returns how many there are.
    pub(crate) fn len(&self) -> usize
        ensures { result ≡ length self.now.queue.items }
    {
        self.queue.len()
    }

    /// Drops the attempts at lines before the one with the given number, and returns how many they
    /// are.
    pub(crate) fn pass_to(&mut self, number: u32) -> usize
        ensures { ArePassed number self.old.queue.items self.new.queue.items result }
    {
        let before = self.queue.len();
        while let Some(_passed) = self.take_below(number) {}
        before - self.queue.len()
    }

    /// Takes the first attempt, if it is at a line before the one with the given number.
    fn take_below(&mut self, number: u32) -> Option<Attempt>
        ensures { IsTakenBelow number self.old.queue.items self.new.queue.items result }
    {
        self.queue.pop_front_if(|attempt| attempt.number < number)
    }

    /// Takes the attempt at the line with the given number, which is the first one if there is one.
    pub(crate) fn take(&mut self, number: u32) -> Option<Attempt>
        ensures { IsTaken number self.old.queue.items self.new.queue.items result }
    {
        self.queue.pop_front_if(|attempt| attempt.number == number)
    }
}
