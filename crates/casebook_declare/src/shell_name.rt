//! Names of variables.
ghost use Rattle.std.specs.Prelude.{◌≡◌, IfOk, IsTrue};
ghost use Rattle.retro_path.specs.VarName.{is_shell_name};
ghost use Rattle.casebook_declare.specs.Rows.{shell_name_of};

use crate::NoMem;
use retro_path::{Text, VarName};
use std::alloc::Global;
use std::marker::Model;
use std::str::from_utf8;

/// The name of a variable of a shell: an ASCII letter or an underscore, followed by ASCII letters,
/// digits and underscores.
#[derive(Drop)]
pub struct ShellName {
    text: Text,
}

impl Model for ShellName {
    ghost use Rattle.std.specs.Prelude.{List, ℕ, IsTrue};
    ghost use Rattle.retro_path.specs.VarName.{is_shell_name};

    ghost Value = { List ℕ };

    ghost view = { λ a. a.text };

    ghost invariant = { λ a. IsTrue (is_shell_name a.text) };
}

/// Returns whether bytes are the name of a variable.
pub(crate) fn is_shell_name(bytes: &[u8]) -> bool
    ensures { result ≡ is_shell_name bytes.now }
{
    match from_utf8(bytes) {
        Ok(text) => VarName::is_shell_name(text),
        Err(_) => false,
    }
}

impl ShellName {
    /// Returns the name that bytes are.
    #[tactic(auto, unfolding(crate::specs::Rows::shell_name_of))]
    pub(crate) fn of(alloc: Global, bytes: &[u8]) -> Result<Option<ShellName>, NoMem>
        ensures { IfOk result (λ name. name ≡ shell_name_of bytes.now) }
    {
        let Ok(text) = from_utf8(bytes) else {
            return Ok(None);
        };
        if !VarName::is_shell_name(text) {
            return Ok(None);
        }
        let text = Text::of(String::from_str(alloc, text)?);
        Ok(Some(ShellName { text }))
    }

    /// Returns the text of the name.
    pub fn as_str(&self) -> &str
        ensures value { result.now ≡ self.now }
        ensures name { IsTrue (is_shell_name self.now) }
    {
        self.text.as_str()
    }
}
