//! Explains what a line was seen to leave behind by lines of Retro's profile.
//!
//! An [`Effect`] is what a typed line was seen to change: nodes in the watched folders, and the
//! directory, variables and status of its session. [`explain`] finds lines of the profile that do
//! just this to a state. If the typed text does it, the line is modelled. Any other line gets a
//! *stand-in*: one or several lines that write what was seen, as in
//!
//! ```text
//! cp /.casebook/62/1 /srv/prices; cat /.casebook/62/2 >> /srv/log; rm -r /tmp/x; cd /srv; x='a b'
//! ```
//!
//! A stand-in copies from the *shelf* of its line, files at `/.casebook/LINE/1` and so on, which
//! are in the recording alone. [`shelf_of`] returns what they hold. Of a file that grew it is only
//! what was appended, so the stand-in doesn't depend on what the file held.
//!
//! Nothing rests on how the text of a stand-in is made. It is run over the state, what it did is
//! compared with what was seen, and it is taken only if both are equal. If no text that is tried
//! does what was seen, the error names a cell, and the state is unchanged.
//!
//! The profile has no line that prints nothing and has another status than 0 or 1. So under a
//! stand-in any status but 0 stands as 1. No line unsets a variable, so an unset one stands as an
//! empty one.
//!
//! If allocation fails, calls return `NoMem`, alone or as a variant of their error, and leave
//! borrowed arguments unchanged.
//!
//! Start reading at `effect.rt`, then `explaining.rt`, `trial.rt` and `comparing.rt`, then
//! `stand_in.rt`.
//!
//! # What is proved
//!
//! - [`explain`] runs texts of the effect's session, one after the other, that lead from the old
//!   state to the new one as Retro's shell defines it: each run's notes hold in the state before
//!   it, and there its line prints its output [`leads`]. The new state is the old one with exactly
//!   the cells of the effect set, where a stand-in's status stands for the one that was seen
//!   [`observed`]. A line is modelled exactly if it has a typed text that isn't too long and whose
//!   line gives the observed state [`modelled`], and then this is its only text [`typed`]. No text
//!   is too long for a line [`short`]. A lawful state stays lawful [`lawful`], with the same
//!   sessions [`sessions`]. If there is an error other than `NoMem`, the line isn't modelled
//!   [`unmodelled`]. After any error the state is unchanged [`err`].
//! - [`shelf_of`] returns what the shelf of a line has to hold, in the order of paths: what
//!   `specs/Shelf.antt` says of each file of the effect.
//! - [`Effect`] keeps each cell once, with the value that was set last, and names no session but
//!   its own. [`Effect::make`] leaves the observed state. That has exactly these cells set
//!   (`observed_states_have_the_cells`).
//!
//! How texts are made isn't proved, except that none is too long. `casebook_stand_in_tests` has
//! rows of them.
#![tactic(auto)]

mod comparing;
mod effect;
mod explain_error;
mod explained;
mod explaining;
mod laws;
mod over;
mod pen;
mod shelf;
mod stand_in;
mod trial;
mod words;

pub use effect::Effect;
pub use explain_error::ExplainError;
pub use explained::Explained;
pub use explaining::explain;
pub use laws::observed_states_have_the_cells;
pub use shelf::shelf_of;

/// Allocation failed.
pub use retro_tree::NoMem;
