//! The places of sessions.
ghost use Rattle.std.specs.Prelude.{◌≡◌, ℕ, List, IfOk, OnOk, map, option_map, if◌then◌else◌};
ghost use Rattle.retro_path.specs.Order.{text_eq};
ghost use Rattle.casebook_typed.specs.Sessions.{parent_by, session_names, step_in, what_in};
ghost use Rattle.casebook_typed.specs.Seeing.{said};
ghost use Rattle.casebook_typed.specs.inner.Places.{AreNames, names_in, place_named, with_name};

use crate::NoMem;
use crate::key::Key;
use crate::observation::Observation;
use crate::step::{Step, What};
use casebook_record::{Event, SessionName, Start};
use std::alloc::Global;
use std::collections::BTreeMap;

/// The places of sessions by their names.
#[derive(Drop)]
pub(crate) struct Places {
    places: BTreeMap<Key, usize>,
}

impl Places {
    /// Returns no places. Takes no memory.
    fn new(alloc: Global) -> Places
        ensures { (q : List ℕ) → place_named result q ≡ 0 }
    {
        Places {
            places: BTreeMap::new(alloc),
        }
    }

    /// Returns the place of a session, counted from 1, or 0 if it has none.
    pub(crate) fn at(&self, key: &Key) -> usize
        ensures { result ≡ place_named self.now key.now }
    {
        match self.places.get(key) {
            Some(place) => *place,
            None => 0,
        }
    }

    /// Returns the place of the session with a name, counted from 1, or 0 if it has none.
    pub(crate) fn of(&self, alloc: Global, name: &SessionName) -> Result<usize, NoMem>
        ensures { IfOk result (λ place. place ≡ place_named self.now name.now) }
    {
        let key = Key::of(alloc, name)?;
        Ok(self.at(&key))
    }

    /// Gives a session a place.
    fn insert(&mut self, key: Key, place: usize) -> Result<(), NoMem>
        ensures { OnOk result ((q : List ℕ) → place_named self.new q
            ≡ (if text_eq q key then place else place_named self.old q)) }
    {
        self.places.insert(key, place)?;
        Ok(())
    }
}

/// The names of sessions, in the order in which they first appear, and their places.
#[derive(Drop)]
pub(crate) struct Names<'a> {
    /// The names.
    pub all: Vec<&'a SessionName>,
    /// Their places.
    pub places: Places,
}

impl<'a> Names<'a> {
    /// Adds the name of a session, unless it is there.
    fn add(&mut self, alloc: Global, name: &'a SessionName) -> Result<(), NoMem>
        requires { AreNames self.old }
        ensures names { OnOk result (names_in self.new ≡ with_name (names_in self.old) name.now) }
        ensures places { OnOk result (AreNames self.new) }
    {
        let key = Key::of(alloc, name)?;
        if self.places.at(&key) == 0 {
            self.all.push(name)?;
            self.places.insert(key, self.all.len())?;
        }
        Ok(())
    }

    /// Returns the names of the sessions of observations.
    pub(crate) fn of(alloc: Global, observations: &[Observation<'a>]) -> Result<Names<'a>, NoMem>
        ensures names { IfOk result (λ names. names_in names
            ≡ session_names (map said observations.now)) }
        ensures places { IfOk result AreNames }
    {
        let mut names = Names {
            all: Vec::new(alloc),
            places: Places::new(alloc),
        };
        for observation in observations {
            names.add(alloc, &observation.record.session)?;
        }
        Ok(names)
    }

    /// Returns the place of the session that started another one, or 0.
    pub(crate) fn parent(&self, alloc: Global, start: Option<&Start>) -> Result<usize, NoMem>
        requires { AreNames self.now }
        ensures { IfOk result (λ place. place
            ≡ parent_by (names_in self.now) (option_map (λ s. s.now) start.entry)) }
    {
        let Some(start) = start else {
            return Ok(0);
        };
        match &start.parent {
            Some(parent) => Ok(self.places.of(alloc, parent)?),
            None => Ok(0),
        }
    }

    /// Returns what happened at a record.
    fn what(&self, alloc: Global, event: &Event) -> Result<What, NoMem>
        requires { AreNames self.now }
        ensures { IfOk result (λ what. what ≡ what_in (names_in self.now) event.now) }
    {
        match event {
            Event::Start(start) => Ok(What::Start(self.parent(alloc, Some(start))?)),
            Event::Begin(begin) => Ok(What::Begin(begin.number.get())),
            Event::End(end) => Ok(What::End(end.number.get())),
            Event::Exit(exit) => Ok(What::Exit(exit.lines)),
        }
    }

    /// Returns what happened at observations.
    pub(crate) fn steps(
        &self,
        alloc: Global,
        observations: &[Observation<'_>],
    ) -> Result<Vec<Step>, NoMem>
        requires { AreNames self.now }
        ensures { IfOk result (λ steps. steps.items
            ≡ map (step_in (names_in self.now)) (map said observations.now)) }
    {
        let mut steps = Vec::with_capacity(alloc, observations.len())?;
        for observation in observations {
            let record = observation.record;
            steps.push(Step {
                session: self.places.of(alloc, &record.session)?,
                what: self.what(alloc, &record.event)?,
            })?;
        }
        Ok(steps)
    }
}
