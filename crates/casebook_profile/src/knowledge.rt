//! Which variables are set.
ghost use Rattle.std.specs.Prelude.{◌≡◌, ◌&&◌, ◌||◌, ◌==◌, ℕ, List, OnOk};
ghost use Rattle.std.specs.FinMap as finmap;
ghost use Rattle.std.specs.List.{list_any};
ghost use Rattle.retro_tree.specs.Order.{text_eq};
ghost use Rattle.retro_tree.specs.Session.{session_in};
ghost use Rattle.casebook_profile.specs.UnknownLines.{notes_setting};
ghost use Rattle.casebook_profile.specs.inner.Scopes.{is_added, knows};

use crate::NoMem;
use retro_tree::{Change, Note, State, VarName};
use std::alloc::Global;
use std::collections::{BTreeMap, BTreeSet};

/// Which variables of which sessions are set, in a first state or by the lines since.
#[derive(Drop)]
pub(crate) struct Knowledge<'a> {
    first: &'a State,
    added: BTreeMap<u32, BTreeSet<VarName>>,
}

impl<'a> Knowledge<'a> {
    /// Returns what is known before any line.
    pub(crate) fn of(alloc: Global, first: &'a State) -> Knowledge<'a>
        ensures { (sid : ℕ) (name : List ℕ) → knows result sid name
            ≡ finmap.contains_key (session_in sid first.now.sessions).vars name }
    {
        Knowledge {
            first,
            added: BTreeMap::new(alloc),
        }
    }

    /// Returns whether a variable was set by a line.
    fn is_added(&self, session: u32, name: &VarName) -> bool
        ensures { result ≡ is_added self.now session name.now }
    {
        match self.added.get(&session) {
            Some(names) => names.contains(name),
            None => false,
        }
    }

    /// Returns whether a variable is set in the first state.
    fn is_first(&self, session: u32, name: &VarName) -> bool
        ensures { result ≡ finmap.contains_key
            (session_in session self.now.first.now.sessions).vars name.now }
    {
        match self.first.sessions().get(session) {
            Some(found) => found.vars.get(name).is_some(),
            None => false,
        }
    }

    /// Returns whether a variable is set.
    pub(crate) fn knows(&self, session: u32, name: &VarName) -> bool
        ensures { result ≡ knows self.now session name.now }
    {
        self.is_first(session, name) || self.is_added(session, name)
    }

    /// Adds a variable.
    fn add(&mut self, alloc: Global, session: u32, name: &VarName) -> Result<(), NoMem>
        ensures { OnOk result ((sid : ℕ) (n : List ℕ) → knows self.new sid n
            ≡ (knows self.old sid n || ((session == sid) && text_eq name.now n))) }
    {
        let name = name.copy()?;
        if let Some(names) = self.added.get_mut(&session) {
            names.insert(name)?;
            return Ok(());
        }
        let mut names = BTreeSet::new(alloc);
        names.insert(name)?;
        self.added.insert(session, names)?;
        Ok(())
    }

    /// Adds the variable that a note sets, if it sets one.
    fn learn_note(&mut self, alloc: Global, note: &Note) -> Result<(), NoMem>
        ensures { OnOk result ((sid : ℕ) (n : List ℕ) → knows self.new sid n
            ≡ (knows self.old sid n || notes_setting sid n note.now)) }
    {
        match note {
            Note::Made(Change::SetVar(session, name, _)) => self.add(alloc, *session, name),
            _ => Ok(()),
        }
    }

    /// Adds the variables that notes set.
    pub(crate) fn learn(&mut self, alloc: Global, notes: &[Note]) -> Result<(), NoMem>
        ensures { OnOk result ((sid : ℕ) (n : List ℕ) → knows self.new sid n
            ≡ (knows self.old sid n || list_any (notes_setting sid n) notes.now)) }
    {
        for note in notes {
            self.learn_note(alloc, note)?;
        }
        Ok(())
    }
}
