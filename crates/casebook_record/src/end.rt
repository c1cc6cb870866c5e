//! Ends of lines.
ghost use Rattle.std.specs.Prelude.{map};
ghost use Rattle.casebook_record.specs.Events.{end_of};
ghost use Rattle.casebook_record.specs.Reads.{Reads};

use crate::fields::wrong_count;
use crate::line_number::LineNumber;
use crate::numbers::status_of;
use crate::record_error::{Field, RecordError};
use crate::statuses::Statuses;
use crate::texts::{change_of, line_of};
use retro_path::Bytes;
use std::alloc::Global;

/// How a line ended.
#[derive(Drop)]
pub struct End {
    /// Its number.
    pub number: LineNumber,
    /// Its status, as `$?` has it.
    pub status: u8,
    /// The statuses of the commands of its last pipeline.
    pub statuses: Statuses,
    /// Its text, unless it is hidden.
    pub line: Option<Bytes>,
    /// The variables as `declare -p` prints them, unless they are the same.
    pub variables: Option<Bytes>,
    /// The functions, aliases and options as text for a shell, unless they are the same.
    pub shell: Option<Bytes>,
}

impl End {
    /// Reads the fields of an end.
    #[tactic(auto, unfolding(crate::specs::Events::end_of))]
    pub(crate) fn of(alloc: Global, fields: &[&[u8]]) -> Result<End, RecordError>
        ensures { Reads (λ r. r) result (end_of (map (λ field. field.now) fields.now)) }
    {
        let [
            number,
            status,
            statuses,
            shown,
            line,
            changed,
            variables,
            renewed,
            shell,
        ] = fields
        else {
            return Err(wrong_count(9, fields));
        };
        let number = Field::Number.or_wrong(LineNumber::of(number))?;
        let status = Field::Status.or_wrong(status_of(status))?;
        let statuses = Statuses::of(alloc, statuses)?;
        let line = line_of(alloc, shown, line)?;
        let variables = change_of(alloc, Field::Variables, changed, variables)?;
        let shell = change_of(alloc, Field::Shell, renewed, shell)?;
        Ok(End {
            number,
            status,
            statuses,
            line,
            variables,
            shell,
        })
    }
}
