//! Seats of a round's board.
use retro_pool::{Owner, Seat, TakeOutcome, Thief};

/// The owner's seat or a thief's.
#[derive(Drop)]
pub(crate) enum AnySeat {
    Owner(Owner),
    Thief(Thief),
}

impl Seat for AnySeat {
    ghost use Rattle.retro_rounds.specs.inner.Workers.{board_of, taken_from};

    ghost board = { board_of };

    ghost taken = { taken_from };

    fn take(&mut self) -> TakeOutcome {
        match self {
            AnySeat::Owner(owner) => owner.take(),
            AnySeat::Thief(thief) => thief.take(),
        }
    }
}
