//! What the command lines and the outputs of both programs share.
//!
//! If allocation fails, calls return `NoMem` or [`CallFault::NoMem`].
//!
//! # What is proved
//!
//! - `Output::write_all` returns `Ok` only if the writer took the whole text, and an error only if
//!   it took a part from the text's start, maybe nothing, but not all of it [`whole`, `part`].
//!   After an error the output has failed, and it fails in no other way [`failed`, `ok`].
//! - `read_call` returns the command that words name and what they give it, by `clap`'s definition
//!   of the program's command line, unless memory runs out (`specs/Calls.antt`).
//! - `option`, `options`, `flag`, `word`, `words`, `help_flag` and `bare_command` make what
//!   `specs/Rules.antt` defines.
//! - `numbers_in` returns the numbers of a list, and `path_named` and `paths_named` the paths that
//!   texts name: equations with what `specs/Numbers.antt` and `specs/Paths.antt` say.
#![tactic(auto)]

mod call;
mod numbers;
mod output;
mod paths;
mod rules;

pub use call::{CallFault, CommandCall, read_call};
pub use numbers::numbers_in;
pub use output::{Output, WriteFailed};
pub use paths::{path_named, paths_named};
pub use rules::{bare_command, flag, help_flag, option, options, word, words};
