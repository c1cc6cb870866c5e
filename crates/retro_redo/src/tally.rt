//! Counts of guesses.

/// How many guesses a repair made, and how they ended. A guess is a run of a line ahead of its
/// turn. A repair on one thread makes none.
#[derive(Clone, Copy, PartialEq, Eq, Debug)]
pub struct Tally {
    /// The lines for which a guess was requested.
    pub jobs: usize,
    /// The guesses that were taken as the new run of their line.
    pub taken_up: usize,
    /// The guesses of lines that were then kept.
    pub unused: usize,
    /// The guesses whose notes didn't hold at their turn.
    pub wrong: usize,
    /// The lines without a guess, which were run at their turn.
    pub given_up: usize,
}

impl Tally {
    ghost use Rattle.std.specs.Prelude.{◌≡◌};
    ghost use Rattle.retro_redo.specs.Repair.{no_guesses};

    /// Returns the counts of a repair without guesses.
    pub fn none() -> Tally
        ensures { result ≡ no_guesses }
    {
        Tally {
            jobs: 0,
            taken_up: 0,
            unused: 0,
            wrong: 0,
            given_up: 0,
        }
    }
}
