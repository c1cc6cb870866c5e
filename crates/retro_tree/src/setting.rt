//! Settings of a session.
ghost use Rattle.std.specs.Prelude.{◌≡◌};
ghost use Rattle.retro_tree.specs.Setting.{setting_fits};

use crate::session::{VALUE_LIMIT, status_fits};
use retro_path::{Path, Text, VarName};

/// A new value for one cell of a session.
#[derive(Drop)]
pub(crate) enum Setting {
    /// The value of a variable.
    Var(VarName, Text),
    /// The directory.
    Cwd(Path),
    /// The status.
    Status(u8),
}

impl Setting {
    /// Returns whether the setting is within the limits.
    pub(crate) fn fits(&self) -> bool
        ensures { result ≡ setting_fits self.now }
    {
        match self {
            Setting::Var(_, value) => value.bytes().len() <= VALUE_LIMIT,
            Setting::Cwd(_) => true,
            Setting::Status(status) => status_fits(*status),
        }
    }
}
