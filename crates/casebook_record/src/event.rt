//! Events of sessions.
ghost use Rattle.std.specs.Prelude.{map};
ghost use Rattle.casebook_record.specs.Records.{event_of};
ghost use Rattle.casebook_record.specs.Reads.{Reads};

use crate::begin::Begin;
use crate::end::End;
use crate::exit::Exit;
use crate::kind::Kind;
use crate::record_error::RecordError;
use crate::start::Start;
use std::alloc::Global;

/// What happened in a session.
#[derive(Drop)]
pub enum Event {
    /// The session started.
    Start(Start),
    /// A line began.
    Begin(Begin),
    /// A line ended.
    End(End),
    /// The session ended.
    Exit(Exit),
}

impl Event {
    /// Reads the fields of an event of a kind.
    pub(crate) fn of(alloc: Global, kind: Kind, fields: &[&[u8]]) -> Result<Event, RecordError>
        ensures { Reads (λ r. r) result
            (event_of kind (map (λ field. field.now) fields.now)) }
    {
        match kind {
            Kind::Start => Ok(Event::Start(Start::of(alloc, fields)?)),
            Kind::Begin => Ok(Event::Begin(Begin::of(alloc, fields)?)),
            Kind::End => Ok(Event::End(End::of(alloc, fields)?)),
            Kind::Exit => Ok(Event::Exit(Exit::of(fields)?)),
        }
    }
}
