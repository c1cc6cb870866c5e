//! Numbers of lines.
ghost use Rattle.std.specs.Prelude.{◌≡◌, ◌<◌};
ghost use Rattle.casebook_record.specs.Numbers.{line_number_of};

use crate::numbers::number_of;
use std::marker::Model;

/// The number of a line in its session. The first line's is 1.
#[derive(Clone, Copy, Debug, Drop)]
pub struct LineNumber {
    number: u32,
}

impl Model for LineNumber {
    ghost use Rattle.std.specs.Prelude.{ℕ, ◌<◌};

    ghost Value = { ℕ };

    ghost view = { λ a. a.number };

    ghost invariant = { λ a. 0 < a.number };

    ghost inverse = { λ n. record { number = n } };
}

impl LineNumber {
    /// Returns the number of a line that a field is.
    #[tactic(auto, unfolding(crate::specs::Numbers::line_number_of))]
    pub(crate) fn of(field: &[u8]) -> Option<LineNumber>
        ensures { result ≡ line_number_of field.now }
    {
        match number_of(field) {
            Some(number) if number > 0 => Some(LineNumber { number }),
            _ => None,
        }
    }

    /// Returns the number.
    pub fn get(self) -> u32
        ensures value { result ≡ self }
        ensures from_one { 0 < result }
    {
        self.number
    }
}
