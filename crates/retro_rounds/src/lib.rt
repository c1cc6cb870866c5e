//! Repairs in rounds: lines are run ahead of their turns, and confirmed in recorded order.
//!
//! [`repair`] answers what [`repair_alone`](retro_redo::repair_alone) answers, for every number of
//! workers and every cut of the lines into pieces. Each piece is a round. When a round begins, the
//! lines of its piece that are likely to be run again are found: its *jobs*. They are run ahead of
//! their turns, in parallel if there are workers, each over the state that it would have if no line
//! of the piece changed anything else than was recorded. Such a run is a *guess*. Then the lines
//! are settled one by one. A stale line takes its guess if the guess's notes hold in the repaired
//! state, and is run again if not.
//!
//! A skip over unmet lines goes through whole pieces. It leaves the cells in which the two states
//! differ unchanged, so it passes over no job, and a piece of which it leaves no line has no round.
//!
//! The tally of a repair says how many jobs there were and how they ended.
//!
//! Start reading at `repairing.rt`, then `rounds.rt`.
//!
//! # What is proved
//!
//! - `repair` returns the repair of a recording with edited lines, for every number of workers up
//!   to 16, every cut into pieces and every schedule of the threads. Its answer is as that of
//!   `repair_alone` [`repair`, `settled`]. The tally adds up: each job was taken up, unused,
//!   wrong or given up. If the recording is one of its lines' script, `jobs` is the number of lines
//!   that are run ahead, and `unused` the number of those among them that are kept at their turn,
//!   both by the states of the two runs (`specs/Pieces.antt`, `specs/Jobs.antt`) [`tally`, by
//!   `IsTally`].
//! - A repair is refused for too many workers, else for no cuts or a zero among them, else for the
//!   least number that two different edits name, else for the least edited number, from 1 on, below
//!   the one at which the recording begins, else for the least edited number that no line has, each
//!   exactly then [`accepted`, `refused`]; `OutOfMemory` comes only if none of these applies.
#![tactic(auto)]

mod any_seat;
mod attempt;
mod attempts;
mod crew;
mod guesses;
mod jobs;
mod pieces;
mod repairing;
mod rounds;
mod rounds_request;
mod worker;

pub use repairing::repair;
pub use rounds_request::MAX_WORKERS;
