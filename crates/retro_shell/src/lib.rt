//! Runs a line of a session, over any view of a state.
//!
//! The meaning of a line is a definition on whole states (`specs/Line.antt`). [`run_line`] runs a
//! line over a view and returns a [`Run`]: the line, the notes of what it read and changed, and its
//! output. The type guarantees that the notes certify the line. In every lawful state that has the
//! session and in which the notes hold, the line makes just their changes and prints that output.
//! So a run over any view counts wherever its notes hold.
//!
//! [`step`] runs a line and changes a state in place. [`play`] does so on a copy of a state.
//!
//! The only error is a failed allocation, `NoMem`. Arguments are then unchanged.
//!
//! Start reading at `line.rt`, then `command.rt` and `simple.rt`.
//!
//! # What is proved
//!
//! - `run_line` and `run_parsed` run a line over any view, lawful or not, and return a `Run`. Its
//!   type keeps that its notes certify the line: in every lawful state that has the session and in
//!   which they hold, each change is lawful where it is made, and the line, as `specs/Line.antt`
//!   defines it, gives the state after the notes and the output. It also keeps that they name no
//!   session but the line's [`run`, of each reader]. The notes hold in the view's state [`holds`];
//!   if that is lawful and has the session, the line means there what the run says [`means`].
//! - `step` and `play` return the text that the terminal gets and leave or return the state after
//!   the line, as `specs/Line.antt` defines them [`means`]. A lawful state stays lawful [`lawful`],
//!   with the same sessions [`sessions`]. If allocation fails, `step` leaves the state unchanged
//!   [`err`].
#![tactic(auto)]

mod assignment;
mod call;
mod command;
mod context;
mod diagnostics;
mod execution;
mod expansion;
mod fields;
mod line;
mod pipe;
mod progress;
mod redirection;
mod run;
mod simple;
mod streams;
mod target;

pub use line::{play, run_line, run_parsed, step};
pub use retro_tree::{NoMem, Note, Notes};
pub use retro_utils::{apply_notes, holds};
pub use run::Run;
