//! Records.
ghost use Rattle.std.specs.Prelude.{map};
ghost use Rattle.casebook_record.specs.Records.{record_in, record_of};
ghost use Rattle.casebook_record.specs.Reads.{Reads};

use crate::directory::Directory;
use crate::event::Event;
use crate::fields::fields_of;
use crate::kind::Kind;
use crate::micros::Micros;
use crate::numbers::number_of;
use crate::record_error::{Field, RecordError};
use crate::session_name::SessionName;
use std::alloc::Global;

/// A record: what happened in a session, when, where, and as which user.
#[derive(Drop)]
pub struct Record {
    /// The session.
    pub session: SessionName,
    /// The time.
    pub at: Micros,
    /// The number of the effective user.
    pub user: u32,
    /// The directory.
    pub directory: Directory,
    /// What happened.
    pub event: Event,
}

/// Reads the fields of a record, as [`fields_of`](crate::fields_of) returns them.
#[tactic(auto, unfolding(crate::specs::Records::record_in))]
pub fn record_in(alloc: Global, fields: &[&[u8]]) -> Result<Record, RecordError>
    ensures { Reads (λ r. r) result (record_in (map (λ field. field.now) fields.now)) }
{
    let [kind, session, at, user, directory, own @ ..] = fields else {
        return Err(RecordError::CutOff);
    };
    let kind = Kind::of(kind).ok_or(RecordError::UnknownKind)?;
    let session = Field::Session.or_wrong(SessionName::of(alloc, session)?)?;
    let at = Field::Time.or_wrong(Micros::of(at))?;
    let user = Field::User.or_wrong(number_of(user))?;
    let directory = Field::Directory.or_wrong(Directory::of(alloc, directory)?)?;
    let event = Event::of(alloc, kind, own)?;
    Ok(Record {
        session,
        at,
        user,
        directory,
        event,
    })
}

/// Reads the bytes of a record.
#[tactic(auto, unfolding(crate::specs::Records::record_of))]
pub fn read_record(alloc: Global, bytes: &[u8]) -> Result<Record, RecordError>
    ensures { Reads (λ r. r) result (record_of bytes.now) }
{
    let fields = fields_of(alloc, bytes)?;
    record_in(alloc, fields.as_slice())
}
