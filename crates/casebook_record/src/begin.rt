//! Beginnings of lines.
ghost use Rattle.std.specs.Prelude.{map};
ghost use Rattle.casebook_record.specs.Events.{begin_of};
ghost use Rattle.casebook_record.specs.Reads.{Reads};

use crate::fields::wrong_count;
use crate::line_number::LineNumber;
use crate::record_error::{Field, RecordError};
use crate::texts::line_of;
use retro_path::Bytes;
use std::alloc::Global;

/// How a line began.
#[derive(Drop)]
pub struct Begin {
    /// Its number.
    pub number: LineNumber,
    /// Its text, unless it is hidden.
    pub line: Option<Bytes>,
}

impl Begin {
    /// Reads the fields of a beginning.
    #[tactic(auto, unfolding(crate::specs::Events::begin_of))]
    pub(crate) fn of(alloc: Global, fields: &[&[u8]]) -> Result<Begin, RecordError>
        ensures { Reads (λ r. r) result (begin_of (map (λ field. field.now) fields.now)) }
    {
        let [number, word, text] = fields else {
            return Err(wrong_count(3, fields));
        };
        let number = Field::Number.or_wrong(LineNumber::of(number))?;
        let line = line_of(alloc, word, text)?;
        Ok(Begin { number, line })
    }
}
