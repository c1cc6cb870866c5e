//! Names of sessions.
ghost use Rattle.std.specs.Prelude.{◌≡◌, IfOk, IsTrue};
ghost use Rattle.std.specs.List.{list_all};
ghost use Rattle.casebook_record.specs.Names.{is_session_byte, is_session_name, session_of};

use crate::NoMem;
use crate::fields::bytes_of;
use retro_path::Bytes;
use std::alloc::Global;
use std::marker::Model;

/// The most bytes of a session's name.
const MOST_BYTES: usize = 64;

/// Returns whether the name of a session may have a byte: an ASCII letter, a digit or `-`.
fn is_session_byte(byte: u8) -> bool
    ensures { result ≡ is_session_byte byte }
{
    byte.is_ascii_alphanumeric() || byte == b'-'
}

/// Returns whether the name of a session may have all bytes.
fn are_session_bytes(bytes: &[u8]) -> bool
    ensures { result ≡ list_all is_session_byte bytes.now }
{
    bytes.iter().all(|byte| is_session_byte(*byte))
}

/// Returns whether bytes are the name of a session.
fn is_session_name(bytes: &[u8]) -> bool
    ensures { result ≡ is_session_name bytes.now }
{
    bytes.len() >= 1 && bytes.len() <= MOST_BYTES && are_session_bytes(bytes)
}

/// The name of a session: 1 to 64 ASCII letters, digits and `-`.
#[derive(Drop)]
pub struct SessionName {
    bytes: Bytes,
}

impl Model for SessionName {
    ghost use Rattle.std.specs.Prelude.{List, ℕ, IsTrue};
    ghost use Rattle.casebook_record.specs.Names.{is_session_name};

    ghost Value = { List ℕ };

    ghost view = { λ a. a.bytes };

    ghost invariant = { λ a. IsTrue (is_session_name a.bytes) };
}

impl SessionName {
    /// Returns the name of a session that a field is.
    #[tactic(auto, unfolding(crate::specs::Names::session_of))]
    pub(crate) fn of(alloc: Global, field: &[u8]) -> Result<Option<SessionName>, NoMem>
        ensures { IfOk result (λ name. name ≡ session_of field.now) }
    {
        if !is_session_name(field) {
            return Ok(None);
        }
        Ok(Some(SessionName {
            bytes: bytes_of(alloc, field)?,
        }))
    }

    /// Returns the bytes of the name.
    pub fn as_slice(&self) -> &[u8]
        ensures value { result.now ≡ self.now }
        ensures name { IsTrue (is_session_name self.now) }
    {
        self.bytes.as_slice()
    }
}
