//! The name of a file.
ghost use Rattle.std.specs.Prelude.{◌≡◌, IfOk, IsTrue, MatchOption, string_bytes, false};
ghost use Rattle.retro_path.specs.Name.{is_name};

use crate::NoMem;
use crate::text::Text;
use std::cmp::Ordering;
use std::marker::Model;

/// The maximum length of a name, in bytes.
pub const NAME_LIMIT: usize = 255;

/// Returns whether a text can be the name of a file: 1 to 255 bytes without a slash, but not `.` or
/// `..`.
#[tactic(auto, unfolding(crate::specs::Name::is_name))]
pub(crate) fn is_name(text: &str) -> bool
    ensures { result ≡ is_name text.now }
{
    text.len() >= 1
        && text.len() <= NAME_LIMIT
        && !text.as_bytes().contains(&b'/')
        && !(text == "." || text == "..")
}

/// The name of a file: 1 to 255 bytes without a slash, but not `.` or `..`. It may contain NUL.
#[derive(Drop, Clone, PartialEq, Eq, PartialOrd, Ord)]
pub struct Name {
    text: Text,
}

impl Model for Name {
    ghost use Rattle.std.specs.Prelude.{List, ℕ, IsTrue};

    ghost Value = { List ℕ };

    ghost use Rattle.retro_path.specs.Name.{is_name};

    ghost view = { λ a. a.text };

    ghost invariant = { λ a. IsTrue (is_name a.text) };

    ghost inverse = { λ v. record { text = v } };
}

impl Name {
    /// Returns the text as a name, or `None` if it can't be one.
    pub fn of(text: String) -> Option<Name>
        ensures { MatchOption result
            (is_name (string_bytes text) ≡ false)
            (λ name. (name ≡ string_bytes text) × IsTrue (is_name name)) }
    {
        if is_name(text.as_str()) {
            Some(Name {
                text: Text::of(text),
            })
        } else {
            None
        }
    }

    /// Returns the text of the name.
    pub fn as_str(&self) -> &str
        ensures value { result.now ≡ self.now }
        ensures name { IsTrue (is_name self.now) }
    {
        self.text.as_str()
    }

    /// Returns a copy.
    pub fn copy(&self) -> Result<Name, NoMem>
        ensures { IfOk result (λ copy. copy ≡ self.now) }
    {
        self.clone()
    }
}
