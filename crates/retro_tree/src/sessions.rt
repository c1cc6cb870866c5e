//! The sessions of a state.
ghost use Rattle.std.specs.Prelude.{◌≡◌, ◌↔◌, IsTrue, IfOk, OnOk, OnErr, true};
ghost use Rattle.std.specs.Option.{option_copied, option_map};
ghost use Rattle.std.specs.FinMap as map;
ghost use Rattle.retro_tree.specs.Maps.{update};
ghost use Rattle.retro_tree.specs.Session.{default_session, session_in, unset};
ghost use Rattle.retro_tree.specs.Setting.{with_setting};
ghost use Rattle.retro_tree.specs.inner.Previous.{previous_of, with_previous, has_place};
ghost use Rattle.retro_tree.specs.Limits.{AreLawfulSessions, are_lawful_sessions};

use crate::known::Known;
use crate::previous::Previous;
use crate::session::Session;
use crate::session_map::SessionMap;
use crate::setting::Setting;
use retro_path::{NoMem, VarName};
use std::alloc::Global;
use std::collections::btree_map::Iter;
use std::marker::Model;

/// The sessions of a state, by their numbers. They may be known to be lawful.
#[derive(Drop, Clone)]
pub struct Sessions {
    sessions: Known<SessionMap>,
}

impl Model for Sessions {
    ghost use Rattle.std.specs.FinMap as map;
    ghost use Rattle.std.specs.Coded.{coded_ℕ};
    ghost use Rattle.std.specs.Ordering.{nat_cmp};
    ghost use Rattle.retro_tree.specs.declared.session.Session.{Session};
    ghost use Rattle.retro_tree.specs.inner.SessionCode.{coded_session};

    ghost Value = { map.FinMap nat_cmp Session };

    ghost coded = { map.code coded_ℕ coded_session };

    ghost use Rattle.retro_tree.specs.inner.Known.{sessions_of, SessionsAreKnown};

    ghost view = { sessions_of };

    ghost invariant = { SessionsAreKnown };
}

impl Sessions {
    /// Returns no sessions.
    pub(crate) fn new(alloc: Global) -> Sessions
        ensures { result ≡ map.empty }
    {
        Sessions {
            sessions: Known::new(SessionMap::new(alloc)),
        }
    }

    /// Returns the session with a number, or `None` if it doesn't exist.
    pub fn get(&self, sid: u32) -> Option<&Session>
        ensures { option_copied result ≡ map.get self.now sid }
    {
        self.sessions.get().get(sid)
    }

    /// Returns the sessions, in order of their numbers.
    pub fn iter(&self) -> Iter<'_, u32, Session>
        ensures { result ≡ map.entries self.now }
    {
        self.sessions.get().iter()
    }

    /// Returns whether each session is within the limits.
    #[tactic(auto, unfolding(crate::specs::Limits::are_lawful_sessions))]
    pub(crate) fn are_lawful(&self) -> bool
        ensures { result ≡ are_lawful_sessions self.now }
    {
        for (_, session) in self.iter() {
            if !session.fits() {
                return false;
            }
        }
        true
    }

    /// Returns whether the sessions are known to be lawful.
    pub(crate) fn is_known_lawful(&self) -> bool
        ensures { IsTrue result → AreLawfulSessions self.now }
    {
        self.sessions.is_known()
    }

    /// Marks lawful sessions as known to be lawful.
    pub(crate) fn mark_lawful(&mut self)
        requires { AreLawfulSessions self.old }
        ensures { self.new ≡ self.old }
    {
        self.sessions.mark(true);
    }

    /// Returns whether each session is within the limits, and remembers it.
    pub(crate) fn validate(&mut self) -> bool
        ensures exact { IsTrue result ↔ AreLawfulSessions self.old }
        ensures unchanged { self.new ≡ self.old }
    {
        let lawful = self.are_lawful();
        self.sessions.mark(lawful);
        lawful
    }

    /// Adds a session, or replaces the one with its number. Sessions that are known to be lawful
    /// stay so if this one is within the limits.
    #[tactic(auto, using(crate::proofs::Keeping::added))]
    pub(crate) fn add(&mut self, sid: u32, session: Session) -> Result<(), NoMem>
        ensures ok { OnOk result (self.new ≡ map.insert self.old sid session) }
        ensures err { OnErr result (self.new ≡ self.old) }
    {
        let lawful = self.is_known_lawful() && session.fits();
        self.sessions.change(lawful).insert(sid, session)
    }

    /// Makes a setting in a session, in place, and returns what it replaced. If the session doesn't
    /// exist, creates it and returns `None`. Sessions that are known to be lawful stay so if the
    /// setting is within the limits.
    #[tactic(auto, using(crate::proofs::Keeping::settings))]
    pub(crate) fn set(
        &mut self,
        alloc: Global,
        sid: u32,
        setting: Setting,
    ) -> Result<Option<Previous>, NoMem>
        ensures previous { IfOk result (λ previous.
            previous ≡ option_map (previous_of setting) (map.get self.old sid)) }
        ensures ok { OnOk result
            (self.new ≡ update self.old sid default_session (with_setting setting)) }
        ensures err { OnErr result (self.new ≡ self.old) }
    {
        let lawful = self.is_known_lawful() && setting.fits();
        self.sessions.change(lawful).set(alloc, sid, setting)
    }

    /// Removes a session, if it exists, and forgets whether the sessions are lawful. Takes no
    /// memory.
    pub(crate) fn remove(&mut self, sid: u32)
        ensures { self.new ≡ map.remove self.old sid }
    {
        self.sessions.change(false).remove(sid);
    }

    /// Restores a previous setting in a session that exists, and forgets whether the sessions are
    /// lawful. Takes no memory.
    pub(crate) fn restore(&mut self, sid: u32, previous: Previous)
        requires exists { map.contains_key self.old sid ≡ true }
        requires place { has_place previous (session_in sid self.old) ≡ true }
        ensures { self.new ≡ update self.old sid default_session (with_previous previous) }
    {
        self.sessions.change(false).restore(sid, previous);
    }

    /// Unsets a variable of a session, in place, if the session exists. Takes no memory. Sessions
    /// that are known to be lawful stay so.
    #[tactic(auto, using(crate::proofs::Keeping::unset_keeps))]
    pub(crate) fn unset(&mut self, sid: u32, name: &VarName)
        ensures { self.new ≡ unset (map.get self.old sid) sid name.now self.old }
    {
        let lawful = self.is_known_lawful();
        self.sessions.change(lawful).unset(sid, name);
    }
}
