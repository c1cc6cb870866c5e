//! Sessions.
ghost use Rattle.std.specs.Prelude.{◌≡◌, ◌&&◌, nat_le, IfOk, OnOk, OnErr, true};
ghost use Rattle.retro_tree.specs.Session.{default_session, status_limit};
ghost use Rattle.retro_tree.specs.Setting.{with_setting};
ghost use Rattle.retro_tree.specs.inner.Previous.{with_previous, previous_of, has_place};
ghost use Rattle.retro_tree.specs.Limits.{values_fit};

use crate::previous::Previous;
use crate::setting::Setting;
use crate::vars::Vars;
use retro_path::{NoMem, Path};
use std::alloc::Global;
use std::mem::replace;

/// The maximum size of the value of a variable, in bytes.
pub const VALUE_LIMIT: usize = 65_536;

/// A session: its directory, its variables and the status of its last line.
#[derive(Drop, Clone)]
pub struct Session {
    /// The directory from which relative paths are resolved. It may be missing.
    pub cwd: Path,
    /// The variables.
    pub vars: Vars,
    /// The status of the last line.
    pub status: u8,
}

/// Returns whether a status is within the limit. Every `u8` is. Only the contract uses the
/// parameter.
pub(crate) fn status_fits(status: u8) -> bool
    ensures { result ≡ nat_le status status_limit }
{
    let _ = status;
    true
}

impl Session {
    /// Returns a session at the root, without variables, with status 0.
    #[tactic(auto, unfolding(crate::specs::Session::default_session))]
    pub(crate) fn new(alloc: Global) -> Session
        ensures { result ≡ default_session }
    {
        Session {
            cwd: Path::root(alloc),
            vars: Vars::new(alloc),
            status: 0,
        }
    }

    /// Makes a setting and returns what it replaced.
    pub(crate) fn set(&mut self, setting: Setting) -> Result<Previous, NoMem>
        ensures previous { IfOk result (λ previous. previous ≡ previous_of setting self.old) }
        ensures ok { OnOk result (self.new ≡ with_setting setting self.old) }
        ensures err { OnErr result (self.new ≡ self.old) }
    {
        match setting {
            Setting::Var(name, value) => {
                let key = name.copy()?;
                match self.vars.insert(key, value)? {
                    Some(previous) => Ok(Previous::Set(Setting::Var(name, previous))),
                    None => Ok(Previous::Unset(name)),
                }
            }
            Setting::Cwd(cwd) => Ok(Previous::Set(Setting::Cwd(replace(&mut self.cwd, cwd)))),
            Setting::Status(status) => {
                let previous = replace(&mut self.status, status);
                Ok(Previous::Set(Setting::Status(previous)))
            }
        }
    }

    /// Restores a previous setting. A variable that it sets must be set. Takes no memory.
    pub(crate) fn restore(&mut self, previous: Previous)
        requires { has_place previous self.old ≡ true }
        ensures { self.new ≡ with_previous previous self.old }
    {
        match previous {
            Previous::Set(setting) => match setting {
                Setting::Var(name, text) => self.vars.replace(name, text),
                Setting::Cwd(cwd) => self.cwd = cwd,
                Setting::Status(status) => self.status = status,
            },
            Previous::Unset(name) => self.vars.remove(&name),
        }
    }

    /// Returns whether the status and the values of the variables are within the limits.
    pub(crate) fn fits(&self) -> bool
        ensures { result ≡ nat_le self.now.status status_limit && values_fit self.now.vars }
    {
        status_fits(self.status) && self.vars.fit()
    }
}
