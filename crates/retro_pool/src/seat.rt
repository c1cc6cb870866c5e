//! Seats from which jobs are taken.
ghost use Rattle.std.specs.Prelude.{◌≡◌, ℕ, List, [], ◌∷◌, ◌++◌};
ghost use Rattle.retro_pool.specs.TakeOutcome.{IfGot};

use crate::owner::Owner;
use crate::take_outcome::TakeOutcome;
use crate::thief::Thief;

/// A seat of a board from which jobs are taken.
pub trait Seat {
    /// The board of the seat.
    ghost board: { Self → ℕ × ℕ };

    /// The numbers of the jobs that were taken from the seat, in order.
    ghost taken: { Self → List ℕ };

    /// Takes the first job that is left.
    fn take(&mut self) -> TakeOutcome
        ensures board { board self.new ≡ board self.old }
        ensures taken { IfGot result (λ job. taken self.new ≡ taken self.old ++ job ∷ [])
            (taken self.new ≡ taken self.old) };
}

impl Seat for Thief {
    ghost board = { λ t. t.board };

    ghost taken = { λ t. t.taken };

    fn take(&mut self) -> TakeOutcome {
        self.steal()
    }
}

impl Seat for Owner {
    ghost board = { λ o. o.board };

    ghost taken = { λ o. o.taken };

    fn take(&mut self) -> TakeOutcome {
        match self.next() {
            Some(job) => TakeOutcome::Got(job),
            None => TakeOutcome::Bare,
        }
    }
}
