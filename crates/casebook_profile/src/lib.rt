//! Which lines of a recording are understood.
//!
//! A line is understood if it means in Retro's shell what it means in an interactive bash with
//! GNU's utilities: each of its commands is literally a utility of the profile, in a form that the
//! profile has, nothing in it is expanded by one of the two alone, and nothing reads the terminal.
//! [`unknown_lines`] returns the other lines of a recording, each with the first [`Obstacle`] in
//! the order of the line, and [`obstacle_in`] that of a text in a state. The text of a line is that
//! which the shell ran, after history expansion.
//!
//! What a text can't tell isn't asked here: aliases and functions, permissions, links, devices, and
//! options of the shell such as `noclobber`.
//!
//! If allocation fails, calls return `NoMem`.
//!
//! Start reading at `finding.rt`, then `lines.rt`, `commands.rt` and `words.rt`.
//!
//! # What is proved
//!
//! - `unknown_lines` returns exactly the lines of a recording that aren't understood, in order,
//!   each with its first obstacle (`unknown_lines_of` of `specs/UnknownLines.antt`): an equation
//!   over the parse trees of the texts, and over which variables the first state and the notes of
//!   earlier lines set. [`obstacle_in`] returns the obstacle of a text by the same definition, over
//!   the variables that a state has.
//! - `understood_lines_have_proper_commands`: in whatever state an understood line begins, each
//!   command that it runs names a utility, and is no usage fault whatever state and input the
//!   utility meets (`ProperLine` of `specs/Proper.antt`, which follows the run of the line).
//!   Nothing is said of a command that runs while a home directory doesn't begin with a slash,
//!   since `~` could then become an option. `known_lines_have_proper_commands` says the same of the
//!   lines of a recording that `unknown_lines` leaves out.
#![tactic(auto)]

mod characters;
mod commands;
mod finding;
mod knowledge;
mod laws;
mod lines;
mod scope;
mod unknown_line;
mod variables;
mod words;

pub use casebook_usage::Obstacle;
pub use finding::{obstacle_in, unknown_lines};
pub use laws::{known_lines_have_proper_commands, understood_lines_have_proper_commands};
pub use unknown_line::UnknownLine;

/// Allocation failed.
pub use retro_tree::NoMem;
