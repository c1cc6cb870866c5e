//! What a line depends on that was observed and that no model explains.
//!
//! An [`ObservedLine`] is what a recorder notes of such a line: its text, and which paths it read,
//! listed and changed. [`needs_of`] returns its needs: the queries on whose answers it can depend,
//! each with the answer of the state in which it began, and with its [`Source`]. While these
//! answers are the same, what the line left can be kept.
//!
//! The needs are found by rules, in this order:
//!
//! 1. What the line read: the nodes of files, and the names in directories that it listed.
//! 2. What it wrote: the nodes at paths that it changed other than by an append, if a file was
//!    there. An append depends on nothing of the file.
//! 3. What its words name, whether something is there or not: the nodes at these paths. Of a
//!    directory also the names in it, and the nodes at the paths below it that the line read,
//!    listed or changed.
//! 4. What scripts name: each file that the line read, has no NUL and is within [`SCRIPT_LIMIT`] is
//!    searched for words with a slash.
//! 5. The variables that it names after a dollar sign, and the status. `HOME`, if a word begins
//!    with a tilde that stands for it.
//! 6. The session's directory, and the file with its functions, aliases and options.
//!
//! Words are found generously, since a need too many only costs a run of the line. A word is a part
//! of the text between blanks, operators, quotes and the like, or a part between quotes as it is.
//! It is taken as a path from the session's directory. A word with a pattern also names the
//! directory in which the pattern begins. Texts that aren't UTF-8 or have a NUL name nothing, since
//! no path of a state has such names.
//!
//! If allocation fails, calls return `NoMem`.
//!
//! Start reading at `observed_line.rt`, `need.rt` and `needs.rt`, then `rules.rt`.
//!
//! # What is proved
//!
//! - `needs_of` returns the queries of all rules (`asked_of` in `specs/Needs.antt`), each once, in
//!   the order of the rules, with its first source and with the answer of the view's state.
//! - Each query of a rule is that of a need (`rules_give_needs`), and no two needs have the same
//!   query (`needs_are_asked_once`).
//! - The notes of needs hold in the state in which the line began, and in exactly those states that
//!   give the same answers. They change no state (`needs_hold`).
//! - `words_of`, `paths_of`, `named_path` and `variables_of` return what `specs/Words.antt`,
//!   `specs/Named.antt` and `specs/Variables.antt` say of a whole text.
//! - `Need::into_note` returns the note of a query with its answer.
#![tactic(auto)]

mod asking;
mod below;
mod effect;
mod laws;
mod named;
mod need;
mod needs;
mod observed_line;
mod query;
mod rules;
mod scripts;
mod sought;
mod source;
mod variables;
mod words;

pub use effect::Effect;
pub use laws::{needs_are_asked_once, needs_hold, rules_give_needs};
pub use named::{named_path, paths_of};
pub use need::Need;
pub use needs::needs_of;
pub use observed_line::ObservedLine;
pub use query::Query;
pub use scripts::SCRIPT_LIMIT;
pub use source::Source;
pub use variables::variables_of;
pub use words::words_of;

/// Allocation failed.
pub use retro_path::NoMem;
