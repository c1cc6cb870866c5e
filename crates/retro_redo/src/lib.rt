//! Selective repair: what a recording would be if its lines were edited.
//!
//! An [`Edit`](retro_keep::Edit) cancels a line or replaces its text. A cancelled line is left out.
//! A line whose text is replaced keeps its number and its session.
//!
//! A [`Repairer`] settles the lines of a recording one by one. It compares two states: the recorded
//! one, and the repaired one, which the edited lines make. It keeps an *exact* overlay, which has
//! entries for exactly the cells in which the two states differ. A line is *met* if it reads or
//! writes one of these cells. A line is *stale* if its notes don't hold in the repaired state. A
//! line whose text is replaced is always met and stale, and a cancelled line is neither. A stale
//! line is run again, with its new text if it has one. Any other line that isn't cancelled is kept
//! as recorded.
//!
//! [`Repairer::next_line`] returns the next line with all that is known of it, a [`Line`], and
//! [`Repairer::settle`] takes it. Lines that are neither edited nor met are kept without being
//! read: [`Repairer::skip_unmet`] goes to the next line that is edited or met. For each cell in
//! which the states differ, the repair keeps the number of the next line that uses it, so it finds
//! that line by its number.
//!
//! A guess is a run of a line ahead of its turn. [`Repairer::ground`] lends what a guess needs. Its
//! views are of combined states: the overlay on a recorded state.
//!
//! [`repair_alone`] repairs a recording on one thread. State and outputs of the [`Repair`] are
//! those of running the edited lines one by one. Where an output differs from the recorded one, the
//! repair has a [`Compensation`]. Its recording is one of the edited lines, and begins at the same
//! number as the recording that is repaired. A line below that number can't be edited.
//!
//! If allocation fails, calls return `NoMem`, or `OutOfMemory` if they have other refusals. Their
//! arguments are then unchanged.
//!
//! Start reading at `repairing.rt`, then `repairer.rt` and `repairer/settling.rt`, then `steps.rt`
//! and `outcome.rt`.
//!
//! # What is proved
//!
//! - `repair_alone` and `repair_watched` return the repair of a recording with edited lines. If the
//!   recording is one of its lines' script, its state and outputs are those of running the edited
//!   lines one by one; its compensations are exactly the lines whose output differs, with both
//!   texts; the verdicts are exact: a line is cancelled if an edit says so, redone if its text is
//!   replaced or its notes don't hold in the repaired state, and else kept; the met lines are
//!   exactly the replaced ones, and those that aren't cancelled and that read or write a cell in
//!   which the two states differ; and its recording is one of the edited lines
//!   (`specs/Repair.antt`) [`repair`]. For any other recording the answer is what some choices for
//!   its lines come to, each one that its line allows, and with new runs of met lines alone; if the
//!   lines as chosen aren't well formed, since a change isn't lawful where it is made, the edited
//!   lines are all run again (`specs/Settled.antt`) [`settled`]. The repaired recording begins
//!   where the recording does, in either case. If edits are refused, the answer is `TwoEdits`,
//!   `BeforeCheckpoint` or `NoSuchLine`, as `Recording::test_edits` says: there is no repair then
//!   [`known`], and `OutOfMemory` comes only if no edit is refused [`refused`].
//! - `Repairer` is the repair line by line. The repaired state is here what the steps so far make
//!   of the first state. `overlay` returns exactly the cells in which it differs from the recorded
//!   state before the next line [`exact`]. If the recording is one of its lines, these two states
//!   are those of running the settled lines and of running them as they are edited [`runs`, by
//!   `AreStatesOfRuns`]. `next_line` returns the next line with its number, its edit, and whether
//!   it is met (`specs/NextLine.antt`). `is_met` decides whether the next line is met [`met`],
//!   `equiv` whether nothing edits it and its notes hold, `fits` whether the notes of a run do,
//!   `redo` returns a run of the line's new text whose notes hold [`new_run`, `holds`], and `step`
//!   settles it in one of the ways that its contract allows [`may`, `ok`], or, if allocation fails,
//!   leaves all unchanged [`err`]. `settle` chooses the step, and its answer says which one it was
//!   and why, for any recording: a cancelled line runs no text; a kept one isn't edited, and its
//!   notes hold if the recording is one of its lines; and only a stale line gets a new run, which
//!   is the guess if it is taken up, and another one if there is no guess or its notes don't hold
//!   [by `IsOneSettled`]. The notes of an unmet line that nothing edits hold in the repaired state,
//!   if the recording is one of its lines [`holds` of `is_met`]. `skip_unmet` keeps exactly the
//!   lines before the next one that is edited or met, and an overlay that was exact is so before
//!   each of them (`specs/Skipping.antt`) [`next`, `ok`, `err`]. `stops_until` returns the numbers
//!   of the lines up to an index that are edited or use a cell in which the states differ now.
//!   `ground` lends what guesses need: its view of any line is the recorded state combined with the
//!   overlay [`state`, `overlays` of `Ground::view`], and of the next line the repaired state
//!   [`shows`]. `finish` returns the repair [`repair`], and for any recording what the choices come
//!   to, or all edited lines run again if they aren't well formed [`settled`].
//! - Two states have only one exact overlay (`exact_overlays_are_one`).
//! - That choices which each line allows come to the run of the edited lines is a law
//!   (`repairs_come_to_the_whole_run`), by one induction over the lines.
//! - Repairing a repaired recording by a second list of edits, which names other lines than the
//!   first, gives the state and the outputs that the lines with both lists of edits give
//!   (`repairs_in_turn_repair_both`).
#![tactic(auto)]

mod altered_paths;
mod compensation;
mod edited;
mod gate;
mod ground;
mod laws;
mod line;
mod outcome;
mod repair;
mod repair_fault;
mod repairer;
mod repairing;
mod settlement;
mod skipping;
mod step;
mod steps;
mod stops;
mod tally;
mod verdict;

pub use compensation::Compensation;
pub use gate::{Gate, Quiet, Turn};
pub use ground::{Ground, Shown};
pub use laws::{
    exact_overlays_are_one, repairs_come_to_the_whole_run, repairs_in_turn_repair_both,
};
pub use line::Line;
pub use repair::Repair;
pub use repair_fault::RepairFault;
pub use repairer::Repairer;
pub use repairing::{repair_alone, repair_watched};
pub use settlement::Settlement;
pub use step::Step;
pub use steps::Steps;
pub use tally::Tally;
pub use verdict::{SettledLine, Verdict};
