//! Refusals of boards.
ghost use Rattle.std.specs.Prelude.{◌≡◌};
ghost use Rattle.retro_pool.specs.BoardFault.{fault_number};
ghost use Rattle.retro_pool.specs.declared.board_fault.BoardFault.TheVariants as faults;

use retro_tree::NoMem;
use thiserror::Error;

/// Why a call of a board is refused.
#[derive(Clone, Copy, Debug, Drop, PartialEq, Eq, Error)]
pub enum BoardFault {
    /// Out of memory (refusal 17).
    #[error("out of memory")]
    OutOfMemory,
    /// A thief is missing, or a dealt job wasn't taken (refusal 18).
    #[error("a thief or a job is missing")]
    Unsettled,
    /// The board has no room for another job (refusal 19).
    #[error("no room for another job")]
    BoardFull,
    /// Over sixteen thieves (refusal 20).
    #[error("too many seats")]
    TooManySeats,
}

impl BoardFault {
    /// Returns the number of the refusal, from 17 to 20.
    pub fn number(&self) -> u8
        ensures { result ≡ fault_number self.now }
    {
        match self {
            BoardFault::OutOfMemory => 17,
            BoardFault::Unsettled => 18,
            BoardFault::BoardFull => 19,
            BoardFault::TooManySeats => 20,
        }
    }
}

impl From<NoMem> for BoardFault {
    ghost from_gives = { λ _ fault. fault ≡ faults.OutOfMemory };

    fn from(_error: NoMem) -> BoardFault {
        BoardFault::OutOfMemory
    }
}
