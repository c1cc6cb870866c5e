//! Umasks.
ghost use Rattle.std.specs.Prelude.{◌≡◌, ◌<◌};
ghost use Rattle.casebook_record.specs.Numbers.{umask_of};

use crate::numbers::digit_of;
use std::marker::Model;

/// The bits of modes that a process doesn't grant to new files: at most 0o7777.
#[derive(Clone, Copy, Debug, Drop)]
pub struct Umask {
    bits: u16,
}

impl Model for Umask {
    ghost use Rattle.std.specs.Prelude.{ℕ, ◌<◌};

    ghost Value = { ℕ };

    ghost view = { λ a. a.bits };

    ghost invariant = { λ a. a.bits < 4096 };

    ghost inverse = { λ n. record { bits = n } };
}

impl Umask {
    /// Returns the umask that four octal digits are.
    #[tactic(auto, unfolding(crate::specs::Numbers::umask_of))]
    pub(crate) fn of(field: &[u8]) -> Option<Umask>
        ensures { result ≡ umask_of field.now }
    {
        let [first, second, third, fourth] = field else {
            return None;
        };
        let first = u16::from(digit_of(8, *first)?);
        let second = u16::from(digit_of(8, *second)?);
        let third = u16::from(digit_of(8, *third)?);
        let fourth = u16::from(digit_of(8, *fourth)?);
        Some(Umask {
            bits: 8 * (8 * (8 * first + second) + third) + fourth,
        })
    }

    /// Returns the bits.
    pub fn bits(self) -> u16
        ensures value { result ≡ self }
        ensures limit { result < 4096 }
    {
        self.bits
    }
}
