//! Times.
ghost use Rattle.std.specs.Prelude.{◌≡◌};
ghost use Rattle.casebook_record.specs.Numbers.{decimal_of};

use crate::numbers::decimal_of;
use std::marker::Model;

/// A time, as microseconds since the beginning of 1970 in UTC.
#[derive(Clone, Copy, Debug, Drop)]
pub struct Micros {
    count: u64,
}

impl Model for Micros {
    ghost use Rattle.std.specs.Prelude.{ℕ};

    ghost Value = { ℕ };

    ghost view = { λ a. a.count };

    ghost inverse = { λ n. record { count = n } };
}

impl Micros {
    /// Returns the time that a field is.
    pub(crate) fn of(field: &[u8]) -> Option<Micros>
        ensures { result ≡ decimal_of field.now }
    {
        match decimal_of(field) {
            Some(count) => Some(Micros { count }),
            None => None,
        }
    }

    /// Returns the microseconds.
    pub fn get(self) -> u64
        ensures { result ≡ self }
    {
        self.count
    }
}
