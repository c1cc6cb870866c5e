//! The name of a variable.
ghost use Rattle.std.specs.Prelude.{◌≡◌, IfOk, IsTrue, MatchOption, false, true, codes};
ghost use Rattle.std.specs.Prelude.{string_bytes};
ghost use Rattle.std.specs.List.{list_all};
ghost use Rattle.retro_path.specs.VarName.{starts_name, continues_name, is_shell_name, is_var_name};

use crate::NoMem;
use crate::text::Text;
use std::alloc::Global;
use std::cmp::Ordering;
use std::marker::Model;

/// The name of a variable that a line can assign: an ASCII letter or an underscore, followed by
/// ASCII letters, digits and underscores (POSIX.1-2017 XBD 3.235). `IFS`, `PWD`, `OLDPWD` and
/// `CDPATH` are refused.
#[derive(Drop, Clone, PartialEq, Eq, PartialOrd, Ord)]
pub struct VarName {
    text: Text,
}

impl Model for VarName {
    ghost use Rattle.std.specs.Prelude.{List, ℕ, IsTrue};
    ghost use Rattle.retro_path.specs.VarName.{is_var_name};

    ghost Value = { List ℕ };

    ghost view = { λ a. a.text };

    ghost invariant = { λ a. IsTrue (is_var_name a.text) };

    ghost inverse = { λ v. record { text = v } };
}

/// Returns whether each byte can follow the first one in a name.
fn all_continue(bytes: &[u8]) -> bool
    ensures { result ≡ list_all continues_name bytes.now }
{
    bytes
        .iter()
        .all(|byte| VarName::may_continue_with(char::from(*byte)))
}

impl VarName {
    /// Returns whether a name can start with the character.
    pub fn may_start_with(c: char) -> bool
        ensures { result ≡ starts_name c }
    {
        c.is_ascii_alphabetic() || c == '_'
    }

    /// Returns whether a name can have the character after its first one.
    pub fn may_continue_with(c: char) -> bool
        ensures { result ≡ continues_name c }
    {
        c.is_ascii_alphanumeric() || c == '_'
    }

    /// Returns whether a text is a name in the shell's grammar, which admits IFS, PWD, OLDPWD and
    /// CDPATH.
    #[tactic(auto, unfolding(crate::specs::VarName::is_shell_name))]
    pub fn is_shell_name(text: &str) -> bool
        ensures { result ≡ is_shell_name text.now }
    {
        match text.as_bytes() {
            [] => false,
            [first, rest @ ..] => {
                VarName::may_start_with(char::from(*first)) && all_continue(rest)
            }
        }
    }

    /// Returns whether a text is the name of a variable that a line can assign.
    #[tactic(auto, unfolding(crate::specs::VarName::is_var_name))]
    pub fn is_var_name(text: &str) -> bool
        ensures { result ≡ is_var_name text.now }
    {
        VarName::is_shell_name(text)
            && !(text == "IFS" || text == "PWD" || text == "OLDPWD" || text == "CDPATH")
    }

    /// Returns the string as a name, or `None` if no line can assign it. Doesn't allocate.
    pub fn from_string(text: String) -> Option<VarName>
        ensures { MatchOption result
            (is_var_name (string_bytes text) ≡ false)
            (λ name. (name ≡ string_bytes text) × (is_var_name (string_bytes text) ≡ true)) }
    {
        if VarName::is_var_name(text.as_str()) {
            Some(VarName {
                text: Text::of(text),
            })
        } else {
            None
        }
    }

    /// Returns the text as a name, or `None` if no line can assign it.
    pub fn of(alloc: Global, text: &str) -> Result<Option<VarName>, NoMem>
        ensures { IfOk result (λ found. MatchOption found
            (is_var_name text.now ≡ false)
            (λ name. (name ≡ text.now) × IsTrue (is_var_name name))) }
    {
        if !VarName::is_var_name(text) {
            return Ok(None);
        }
        Ok(Some(VarName {
            text: Text::of(String::from_str(alloc, text)?),
        }))
    }

    /// Returns the name `HOME`.
    #[tactic(auto, using(crate::proofs::Home::home_is_name))]
    pub fn home(alloc: Global) -> Result<VarName, NoMem>
        ensures { IfOk result (λ name. name ≡ codes "HOME") }
    {
        Ok(VarName {
            text: Text::of(String::from_str(alloc, "HOME")?),
        })
    }

    /// Returns the text of the name.
    pub fn as_str(&self) -> &str
        ensures value { result.now ≡ self.now }
        ensures name { IsTrue (is_var_name self.now) }
    {
        self.text.as_str()
    }

    /// Returns a copy.
    pub fn copy(&self) -> Result<VarName, NoMem>
        ensures { IfOk result (λ copy. copy ≡ self.now) }
    {
        self.clone()
    }
}
