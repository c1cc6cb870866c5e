//! Makes of a spool what a recording of it is made of: the state before its lines, and what each
//! line was seen to do.
//!
//! A spool has lines, each with what it read, listed and left (`casebook_typed`), and the bytes of
//! files under their digests. [`import`] returns the state before all lines, and a
//! `SeenLine` of `casebook_explain` for each line.
//!
//! - A file whose bytes aren't kept, and whatever is neither a file nor a directory, is a file of
//!   the state, with a text that says what it is and tells it from others (`specs/Nodes.antt`,
//!   `specs/Opaque.antt`).
//! - Variables that no line of Retro's shell can assign are left out. Another text stands for a
//!   value that a state can't hold. A variable that is unset counts as empty. If no bash prints what
//!   a record says of variables, they stay as they were (`specs/Variables.antt`).
//! - The functions, aliases and options of a session are a file (`shell_path` of
//!   `casebook_explain`).
//! - A line has a text that may be modelled if it ended, `casebook_profile` understands it in the
//!   state before the line, no function, alias or option of its session gives it another meaning
//!   (`casebook_shell`), and neither what it touched nor what its words name is a text that stands
//!   for something else (`specs/Understood.antt`).
//! - Only a line that ended says what its session is afterwards. Lines are of sessions 1, 2 and so
//!   on, in the order in which these first appear in the spool, and nobody's lines of session 0.
//! - Directories that aren't watched, and in which sessions are at some time, are there from the
//!   beginning, without anything in them. `/.casebook/elsewhere` stands for a directory that no
//!   state has (`specs/Directories.antt`).
//!
//! If allocation fails, calls return `NoMem`, alone or as a variant of their error.
//!
//! Start reading at `importing.rt`, then `effects.rt`, `first_state.rt` and `nodes.rt`.
//!
//! # What is proved
//!
//! - [`import`] returns the state that `specs/First.antt` defines for the first look, the sessions
//!   and the lines [`first`], and for each line its text, whether that may be modelled, what the
//!   line read and listed, and its effect, over the state that was observed before it [`lines`]
//!   (`specs/Effects.antt`, `specs/Understood.antt`). It refuses only sessions that 32 bits can't
//!   number [`many`].
#![tactic(auto)]

mod directories;
mod effects;
mod first_state;
mod import_error;
mod importing;
mod nodes;
mod opaque;
mod said_vars;
mod understood;
mod variables;

pub use import_error::ImportError;
pub use importing::{Imported, import};

/// Allocation failed.
pub use retro_tree::NoMem;
