//! Ends of sessions.
ghost use Rattle.std.specs.Prelude.{map};
ghost use Rattle.casebook_record.specs.Events.{exit_of};
ghost use Rattle.casebook_record.specs.Reads.{Reads};

use crate::fields::wrong_count;
use crate::numbers::{number_of, status_of};
use crate::record_error::{Field, RecordError};

/// How a session ended.
#[derive(Clone, Copy, Debug, Drop, PartialEq, Eq)]
pub struct Exit {
    /// How many lines it had.
    pub lines: u32,
    /// Its status.
    pub status: u8,
}

impl Exit {
    /// Reads the fields of the end of a session.
    #[tactic(auto, unfolding(crate::specs::Events::exit_of))]
    pub(crate) fn of(fields: &[&[u8]]) -> Result<Exit, RecordError>
        ensures { Reads (λ r. r) result (exit_of (map (λ field. field.now) fields.now)) }
    {
        let [lines, status] = fields else {
            return Err(wrong_count(2, fields));
        };
        let lines = Field::Number.or_wrong(number_of(lines))?;
        let status = Field::Status.or_wrong(status_of(status))?;
        Ok(Exit { lines, status })
    }
}
