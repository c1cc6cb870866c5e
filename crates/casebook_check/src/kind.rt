//! The kinds of documents.
ghost use Rattle.std.specs.Prelude.{◌≡◌};
ghost use Rattle.casebook_check.specs.Keys.{version_key};

use crate::key::Key;

/// A kind of document.
#[derive(Clone, Copy, Debug, PartialEq, Eq)]
pub(crate) enum Kind {
    /// A script.
    Script,
    /// A log, of either version.
    Log,
}

impl Kind {
    /// Returns the key of the version of such documents.
    pub(crate) fn version_key(self) -> Key
        ensures { result ≡ version_key self }
    {
        match self {
            Kind::Script => Key::Script,
            Kind::Log => Key::Log,
        }
    }
}
