//! What utilities compute from texts alone (XCU chapter 4).
//!
//! Options and operands, lines, the lists of `cut` and what it leaves of a text, the lines that
//! `grep -F` selects and what it prints, the condition of `test`, the text of `echo`. Decimal
//! numbers are read here for the programs and their lists of lines too. Nothing here knows files or
//! states. Each call is an equation between its arguments and its result.
//!
//! If allocation fails, calls return `NoMem` and leave their arguments unchanged.
//!
//! # What is proved
//!
//! - Each call is an equation: options and operands (`Request::of`), `Cut::of` and `Cut::text`,
//!   `Search::of` and `Search::run`, `Condition::of`, `echo_text`, `Utility::of`, `number_of`.
#![tactic(auto)]

mod condition;
mod cut;
mod echo;
mod given;
mod known_letters;
mod lines;
mod number;
mod request;
mod search;
mod span;
mod spans;
mod sweep;
mod usage;
mod utility;

pub use condition::{Condition, PathTest, before_bracket};
pub use cut::Cut;
pub use echo::echo_text;
pub use known_letters::KnownLetters;
pub use lines::Lines;
pub use number::number_of;
pub use request::Request;
pub use search::{Found, Search, label};
pub use span::Span;
pub use spans::Spans;
pub use usage::{UsageError, usage_text};
pub use utility::Utility;

/// Allocation failed.
pub use retro_path::NoMem;
