//! The cells in which two states differ, kept exact while lines are run in both.
//!
//! A repair compares two states: the recorded state, as the lines were run, and the repaired one. A
//! [`Difference`] has the cells in which they differ before a line of the recording, each with the
//! repaired value and with the next line that uses it. It goes over one line after another
//! ([`LineRun`]), whatever notes the recorded and the repaired state go on by.
//!
//! The cells with their values are an overlay. It is exact if it has entries for exactly the cells
//! in which the states differ, each with the repaired value. [`CombinedView`] is a view of a
//! combined state: an overlay on the state of another view. [`equiv`] says whether notes hold in
//! the repaired state.
//!
//! If allocation fails, calls return `NoMem`. A difference then keeps its cells and their next
//! uses.
//!
//! Start reading at `difference.rt`, then `next_uses.rt`, then `advancing.rt` and `planner.rt`.
//!
//! # What is proved
//!
//! - `Difference::advance` takes a difference whose values differ from those of the recorded state
//!   before a line. If it is exact, it is exact again after the line; and if its next uses are
//!   those among the lines from that line on, they are those among the lines after it
//!   (`specs/Difference.antt`) [`ok`]. If allocation fails, its overlay is unchanged, and its next
//!   uses are still those from the line on [`err`].
//! - `next` and `is_used_at` say which line uses one of the cells next, and `numbers_until` which
//!   lines do so up to a number (`specs/NextUses.antt`). That a line uses one of the cells exactly
//!   if it is met by the two states is proved where the states are known, in `retro_redo`.
//! - A `CombinedView` answers as the state that an overlay makes of a view's. `equiv` is true
//!   exactly if notes hold in the state that an exact overlay makes of a view's.
#![tactic(auto)]

mod advancing;
mod bytes;
mod combined_view;
mod decision;
mod difference;
mod grown_ref;
mod line_run;
mod next_uses;
mod overlays;
mod plan;
mod planner;
mod undo;
mod write;
mod write_map;
mod writing;

pub use combined_view::{CombinedView, equiv};
pub use difference::Difference;
pub use line_run::LineRun;
