//! Directories.
ghost use Rattle.std.specs.Prelude.{◌≡◌, IfOk, IsTrue};
ghost use Rattle.casebook_record.specs.Names.{directory_of, is_absolute};

use crate::NoMem;
use crate::fields::bytes_of;
use retro_path::Bytes;
use std::alloc::Global;
use std::marker::Model;

/// Returns whether bytes begin with a slash.
fn is_absolute(bytes: &[u8]) -> bool
    ensures { result ≡ is_absolute bytes.now }
{
    match bytes {
        [first, ..] => *first == b'/',
        [] => false,
    }
}

/// The name of a directory, from the root: bytes that begin with a slash. They may not be UTF-8.
#[derive(Drop)]
pub struct Directory {
    bytes: Bytes,
}

impl Model for Directory {
    ghost use Rattle.std.specs.Prelude.{List, ℕ, IsTrue};
    ghost use Rattle.casebook_record.specs.Names.{is_absolute};

    ghost Value = { List ℕ };

    ghost view = { λ a. a.bytes };

    ghost invariant = { λ a. IsTrue (is_absolute a.bytes) };
}

impl Directory {
    /// Returns the directory that a field names.
    #[tactic(auto, unfolding(crate::specs::Names::directory_of))]
    pub(crate) fn of(alloc: Global, field: &[u8]) -> Result<Option<Directory>, NoMem>
        ensures { IfOk result (λ directory. directory ≡ directory_of field.now) }
    {
        if !is_absolute(field) {
            return Ok(None);
        }
        Ok(Some(Directory {
            bytes: bytes_of(alloc, field)?,
        }))
    }

    /// Returns the bytes of the name.
    pub fn as_slice(&self) -> &[u8]
        ensures value { result.now ≡ self.now }
        ensures absolute { IsTrue (is_absolute self.now) }
    {
        self.bytes.as_slice()
    }
}
