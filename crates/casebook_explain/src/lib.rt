//! Makes a recording that explains what lines were seen to do on a machine.
//!
//! A [`SeenLine`] has what was typed, and what the line read, listed and left. [`tell_lines`]
//! returns, for lines and the state before them, a [`Told`]: the first state of a recording, and
//! for each line a [`ToldLine`]: the texts of Retro's shell that lead from the state before it to
//! the one that was observed after it, whether the typed text does so (then it is the only one),
//! and what the line depends on. [`Told::into_recording`] makes the recording of these texts.
//!
//! What isn't on the machine is below `/.casebook` in the first state: the shelf of the N-th line
//! is in `/.casebook/N`, from which its texts copy, and `/.casebook/shell/S` is the file in which
//! the functions, aliases and options of session S are kept, as one text ([`shell_path`]). An
//! effect may change the latter; lines that touch `/.casebook` otherwise aren't those of a machine.
//!
//! A line that was observed, and isn't modelled, has needs: queries with the answers that were seen
//! (`casebook_needs`). Its texts do what it did, whatever the state is, but the line itself would
//! do so only where its needs have these answers. So needs are notes of its first text, before
//! those of its run: a repair keeps the line exactly while they hold. A modelled line means the
//! same in each state, as long as its session has the same functions, aliases and options. A log for
//! `retro` has the notes of runs alone, since its `check` compares them exactly ([`Noting`]).
//!
//! If allocation fails, calls return `NoMem`, alone or as a variant of their error.
//!
//! Start reading at `seen_line.rt` and `told.rt`, then `telling.rt`, `shelves.rt` and `noting.rt`.
//!
//! # What is proved
//!
//! - [`tell_lines`] returns the given first state with the shelf of each line [`first`], and one
//!   told line for each line. The texts of each lead from the state before it to the observed one,
//!   which has exactly the cells set that the line was seen to change; it is modelled exactly if
//!   its typed text does so; its needs are those of the rules, in the state before it [`told`]. If
//!   the first state isn't lawful with its shelves, or a line's session doesn't exist, it says so
//!   [`fault`].
//! - Shelves change nothing outside `/.casebook` (`shelves_are_apart`). What a cell holds after
//!   each line is what it held on the machine, if it did so before the first one and isn't a status
//!   (`told_states_are_the_observed_ones`). Of a status it is whether it is 0.
//! - [`Told::into_recording`] returns the recording that begins at line 1 and has the texts of all
//!   lines, numbered from 1 on, with their runs' notes and outputs, and, unless they are left out, the
//!   needs of each line as notes before those of its first text [`recording`]. Each line is recorded in the state before
//!   it [`recorded`], so the recording is one of the lines that it has. It fails only if there are
//!   more texts than 32 bits can number [`fault`].
#![tactic(auto)]

mod done;
mod laws;
mod noting;
mod places;
mod seen_line;
mod shelves;
mod tell_fault;
mod telling;
mod told;

pub use laws::{shelves_are_apart, told_states_are_the_observed_ones};
pub use noting::Noting;
pub use places::shell_path;
pub use seen_line::SeenLine;
pub use tell_fault::{LineFault, TellFault};
pub use telling::tell_lines;
pub use told::{Told, ToldLine};

/// Allocation failed.
pub use retro_tree::NoMem;
