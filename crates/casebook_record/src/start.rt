//! Starts of sessions.
ghost use Rattle.std.specs.Prelude.{map, ok_or};
ghost use Rattle.casebook_record.specs.Names.{parent_of};
ghost use Rattle.casebook_record.specs.Events.{start_of};
ghost use Rattle.casebook_record.specs.Reads.{Reads};
ghost use Rattle.casebook_record.specs.declared.record_error.Field.TheVariants.{Parent};
ghost use Rattle.casebook_record.specs.declared.record_error.RecordError.TheVariants.{Wrong};

use crate::fields::{bytes_of, wrong_count};
use crate::record_error::{Field, RecordError};
use crate::session_name::SessionName;
use crate::texts::change_of;
use crate::umask::Umask;
use retro_path::Bytes;
use std::alloc::Global;

/// How a session started.
#[derive(Drop)]
pub struct Start {
    /// The session in which it was started, if there is one.
    pub parent: Option<SessionName>,
    /// The name of its terminal. It may be empty.
    pub terminal: Bytes,
    /// Its umask.
    pub umask: Umask,
    /// The login name of its user. It may be empty.
    pub login: Bytes,
    /// What SSH says of its connection. It may be empty.
    pub connection: Bytes,
    /// The variables as `declare -p` prints them, unless they are the same.
    pub variables: Option<Bytes>,
    /// The functions, aliases and options as text for a shell, unless they are the same.
    pub shell: Option<Bytes>,
}

/// Returns the session that a field names, or none if it is empty.
#[tactic(auto, unfolding(crate::specs::Names::parent_of))]
fn parent_of(alloc: Global, field: &[u8]) -> Result<Option<SessionName>, RecordError>
    ensures { Reads (λ r. r) result (ok_or (parent_of field.now) (Wrong Parent)) }
{
    if field.is_empty() {
        return Ok(None);
    }
    let parent = Field::Parent.or_wrong(SessionName::of(alloc, field)?)?;
    Ok(Some(parent))
}

impl Start {
    /// Reads the fields of a start.
    #[tactic(auto, unfolding(crate::specs::Events::start_of))]
    pub(crate) fn of(alloc: Global, fields: &[&[u8]]) -> Result<Start, RecordError>
        ensures { Reads (λ r. r) result (start_of (map (λ field. field.now) fields.now)) }
    {
        let [
            parent,
            terminal,
            umask,
            login,
            connection,
            changed,
            variables,
            renewed,
            shell,
        ] = fields
        else {
            return Err(wrong_count(9, fields));
        };
        let parent = parent_of(alloc, parent)?;
        let umask = Field::Umask.or_wrong(Umask::of(umask))?;
        let variables = change_of(alloc, Field::Variables, changed, variables)?;
        let shell = change_of(alloc, Field::Shell, renewed, shell)?;
        Ok(Start {
            parent,
            terminal: bytes_of(alloc, terminal)?,
            umask,
            login: bytes_of(alloc, login)?,
            connection: bytes_of(alloc, connection)?,
            variables,
            shell,
        })
    }
}
