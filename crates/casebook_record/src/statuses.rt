//! Statuses of pipelines.
ghost use Rattle.std.specs.Prelude.{◌≡◌, ◌<◌, IfOk, length, map, ok_or, option_map};
ghost use Rattle.casebook_record.specs.Reads.{Reads};
ghost use Rattle.casebook_record.specs.Statuses.{all_of, statuses_of};
ghost use Rattle.casebook_record.specs.Numbers.{status_of};
ghost use Rattle.casebook_record.specs.declared.record_error.Field.TheVariants as fields;
ghost use Rattle.casebook_record.specs.declared.record_error.RecordError.TheVariants.{Wrong};

use crate::NoMem;
use crate::fields::split;
use crate::numbers::status_of;
use crate::record_error::{Field, RecordError};
use std::alloc::Global;
use std::marker::Model;

/// The byte between two statuses.
const BLANK: u8 = b' ';

/// The statuses of the commands of a pipeline, of which there is at least one.
#[derive(Drop)]
pub struct Statuses {
    statuses: Vec<u8>,
}

impl Model for Statuses {
    ghost use Rattle.std.specs.Prelude.{List, ℕ, ◌<◌, length};

    ghost Value = { List ℕ };

    ghost view = { λ a. a.statuses.items };

    ghost invariant = { λ a. 0 < length a.statuses.items };
}

/// Returns the statuses that parts are, or `None` if one isn't a status.
fn all_of(alloc: Global, parts: &[&[u8]]) -> Result<Option<Vec<u8>>, NoMem>
    ensures { IfOk result (λ statuses. option_map (λ v. v.items) statuses
        ≡ all_of status_of (map (λ part. part.now) parts.now)) }
{
    let mut statuses = Vec::new(alloc);
    for part in parts {
        match status_of(part) {
            Some(status) => statuses.push(status)?,
            None => return Ok(None),
        }
    }
    Ok(Some(statuses))
}

impl Statuses {
    /// Returns the statuses that a field has.
    #[tactic(auto, unfolding(crate::specs::Statuses::statuses_of))]
    pub(crate) fn of(alloc: Global, field: &[u8]) -> Result<Statuses, RecordError>
        ensures { Reads (λ r. r) result (ok_or (statuses_of field.now) (Wrong fields.Statuses)) }
    {
        let parts = split(alloc, field, BLANK)?;
        match all_of(alloc, parts.as_slice())? {
            Some(statuses) => Ok(Statuses { statuses }),
            None => Err(RecordError::Wrong(Field::Statuses)),
        }
    }

    /// Returns the statuses, from left to right.
    pub fn as_slice(&self) -> &[u8]
        ensures value { result.now ≡ self.now }
        ensures some { 0 < length result.now }
    {
        self.statuses.as_slice()
    }
}
