//! Where lines begin and end.
ghost use Rattle.std.specs.Prelude.{◌≡◌, ◌==◌, ◌&&◌, ℕ, IfOk, OnOk, None, Some, if◌then◌else◌};
ghost use Rattle.std.specs.Prelude.{Err};
ghost use Rattle.casebook_typed.specs.Spans.{contradiction, is_begin_of, is_end_of};
ghost use Rattle.casebook_typed.specs.inner.Places.{AreMarks, marked_by, place_of};
ghost use Rattle.casebook_typed.specs.declared.typed_error.TypedError.TheVariants as errors;

use crate::NoMem;
use crate::step::{Step, What};
use crate::typed_error::TypedError;
use std::alloc::Global;
use std::collections::BTreeMap;

/// An observation for each of some lines.
#[derive(Drop)]
pub(crate) struct LinePlaces {
    places: BTreeMap<(usize, u32), usize>,
}

impl LinePlaces {
    /// Returns no observations. Takes no memory.
    fn new(alloc: Global) -> LinePlaces
        ensures { (s n : ℕ) → place_of result s n ≡ None }
    {
        LinePlaces {
            places: BTreeMap::new(alloc),
        }
    }

    /// Returns the observation of the line of a session with a number.
    pub(crate) fn get(&self, session: usize, number: u32) -> Option<usize>
        ensures { result ≡ place_of self.now session number }
    {
        match self.places.get(&(session, number)) {
            Some(at) => Some(*at),
            None => None,
        }
    }

    /// Sets the observation of a line.
    fn insert(&mut self, session: usize, number: u32, at: usize) -> Result<(), NoMem>
        ensures { OnOk result ((s n : ℕ) → place_of self.new s n
            ≡ (if (s == session) && (n == number) then Some at else place_of self.old s n)) }
    {
        self.places.insert((session, number), at)?;
        Ok(())
    }
}

/// Where lines begin and end.
#[derive(Drop)]
pub(crate) struct Marks {
    /// The observation at which each line begins.
    pub begins: LinePlaces,
    /// The observation at which each line ends.
    pub ends: LinePlaces,
}

impl Marks {
    /// Returns whether a step contradicts one that is marked.
    fn contradict(&self, step: &Step) -> bool
        ensures { result ≡ marked_by self.now step.now.session step.now.what }
    {
        let session = step.session;
        match step.what {
            What::Begin(number) => {
                self.begins.get(session, number).is_some()
                    || self.ends.get(session, number).is_some()
            }
            What::End(number) => self.ends.get(session, number).is_some(),
            What::Start(_) | What::Exit(_) => false,
        }
    }

    /// Marks a step.
    fn mark(&mut self, step: &Step, at: usize) -> Result<(), NoMem>
        ensures begins { OnOk result ((s n : ℕ) → place_of self.new.begins s n
            ≡ (if is_begin_of s n step.now then Some at else place_of self.old.begins s n)) }
        ensures ends { OnOk result ((s n : ℕ) → place_of self.new.ends s n
            ≡ (if is_end_of s n step.now then Some at else place_of self.old.ends s n)) }
    {
        match step.what {
            What::Begin(number) => self.begins.insert(step.session, number, at),
            What::End(number) => self.ends.insert(step.session, number, at),
            What::Start(_) | What::Exit(_) => Ok(()),
        }
    }

    /// Marks where lines begin and end.
    pub(crate) fn of(alloc: Global, steps: &[Step]) -> Result<Marks, TypedError>
        ensures ok { OnOk result (contradiction steps.now ≡ None) }
        ensures marks { IfOk result (λ marks. AreMarks marks steps.now) }
        ensures contradiction { (at : ℕ) → result ≡ Err (errors.Contradiction at)
            → contradiction steps.now ≡ Some at }
    {
        let mut marks = Marks {
            begins: LinePlaces::new(alloc),
            ends: LinePlaces::new(alloc),
        };
        for (at, step) in steps.iter().enumerate() {
            if marks.contradict(step) {
                return Err(TypedError::Contradiction(at));
            }
            marks.mark(step, at)?;
        }
        Ok(marks)
    }
}
