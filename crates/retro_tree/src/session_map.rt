//! Sessions by their numbers.
ghost use Rattle.std.specs.Prelude.{◌≡◌, IfOk, OnOk, OnErr, true};
ghost use Rattle.std.specs.Option.{option_copied, option_map};
ghost use Rattle.std.specs.FinMap as map;
ghost use Rattle.retro_tree.specs.Maps.{update};
ghost use Rattle.retro_tree.specs.Session.{default_session, session_in, unset};
ghost use Rattle.retro_tree.specs.Setting.{with_setting};
ghost use Rattle.retro_tree.specs.inner.Previous.{previous_of, with_previous, has_place};

use crate::previous::Previous;
use crate::session::Session;
use crate::setting::Setting;
use retro_path::{NoMem, VarName};
use std::alloc::Global;
use std::collections::BTreeMap;
use std::collections::btree_map::Iter;
use std::marker::Model;

/// Sessions by their numbers. They know nothing of the law.
#[derive(Drop, Clone)]
pub(crate) struct SessionMap {
    sessions: BTreeMap<u32, Session>,
}

impl Model for SessionMap {
    ghost use Rattle.std.specs.FinMap as map;
    ghost use Rattle.std.specs.Coded.{coded_ℕ};
    ghost use Rattle.std.specs.Ordering.{nat_cmp};
    ghost use Rattle.retro_tree.specs.declared.session.Session.{Session};
    ghost use Rattle.retro_tree.specs.inner.SessionCode.{coded_session};

    ghost Value = { map.FinMap nat_cmp Session };

    ghost coded = { map.code coded_ℕ coded_session };

    ghost view = { λ a. map.from_entries a.sessions.entries };
}

impl SessionMap {
    /// Returns no sessions.
    pub(crate) fn new(alloc: Global) -> SessionMap
        ensures { result ≡ map.empty }
    {
        SessionMap {
            sessions: BTreeMap::new(alloc),
        }
    }

    /// Returns the session with a number, or `None` if it doesn't exist.
    pub(crate) fn get(&self, sid: u32) -> Option<&Session>
        ensures { option_copied result ≡ map.get self.now sid }
    {
        self.sessions.get(&sid)
    }

    /// Returns the sessions, in order of their numbers.
    pub(crate) fn iter(&self) -> Iter<'_, u32, Session>
        ensures { result ≡ map.entries self.now }
    {
        self.sessions.iter()
    }

    /// Adds a session, or replaces the one with its number.
    pub(crate) fn insert(&mut self, sid: u32, session: Session) -> Result<(), NoMem>
        ensures ok { OnOk result (self.new ≡ map.insert self.old sid session) }
        ensures err { OnErr result (self.new ≡ self.old) }
    {
        self.sessions.insert(sid, session)?;
        Ok(())
    }

    /// Makes a setting in a session, in place, and returns what it replaced. If the session doesn't
    /// exist, creates it and returns `None`.
    pub(crate) fn set(
        &mut self,
        alloc: Global,
        sid: u32,
        setting: Setting,
    ) -> Result<Option<Previous>, NoMem>
        ensures previous { IfOk result (λ previous.
            previous ≡ option_map (previous_of setting) (map.get self.old sid)) }
        ensures ok { OnOk result
            (self.new ≡ update self.old sid default_session (with_setting setting)) }
        ensures err { OnErr result (self.new ≡ self.old) }
    {
        if let Some(session) = self.sessions.get_mut(&sid) {
            return Ok(Some(session.set(setting)?));
        }
        let mut session = Session::new(alloc);
        session.set(setting)?;
        self.insert(sid, session)?;
        Ok(None)
    }

    /// Removes a session, if it exists. Takes no memory.
    pub(crate) fn remove(&mut self, sid: u32)
        ensures { self.new ≡ map.remove self.old sid }
    {
        self.sessions.remove(&sid);
    }

    /// Restores a previous setting in a session that exists. Takes no memory.
    pub(crate) fn restore(&mut self, sid: u32, previous: Previous)
        requires exists { map.contains_key self.old sid ≡ true }
        requires place { has_place previous (session_in sid self.old) ≡ true }
        ensures { self.new ≡ update self.old sid default_session (with_previous previous) }
    {
        match self.sessions.get_mut(&sid) {
            Some(session) => session.restore(previous),
            None => unreachable!(),
        }
    }

    /// Unsets a variable of a session, in place, if the session exists. Takes no memory.
    pub(crate) fn unset(&mut self, sid: u32, name: &VarName)
        ensures { self.new ≡ unset (map.get self.old sid) sid name.now self.old }
    {
        if let Some(session) = self.sessions.get_mut(&sid) {
            session.vars.remove(name);
        }
    }
}
