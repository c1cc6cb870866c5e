//! What a spool says, as the lines that a recording is made of: in order, each with what it read,
//! listed and left.
//!
//! A spool has a first look at the watched folders, and an observation for each record of the hook
//! since (`casebook_spool`). [`typed_lines`] returns the sessions and the lines that it says. The
//! rules are in `specs/`, by the places of observations:
//!
//! - A line is open from the observation after its beginning to its end. Without an end it is cut
//!   off at the next observation, and without a beginning it is open at its end alone
//!   (`specs/Spans.antt`).
//! - A line waits from the observation after one at which a session started from its own, until it
//!   closes. A line that is open and doesn't wait is *active*.
//! - What is seen at an observation is of the line that closes there, or else a part of the active
//!   line that began first (`specs/Lines.antt`). While no line is active, what is changed is
//!   nobody's, and what is only read is of no line. If one line is cut off and another one ends, it
//!   is of the first one if no other line is active, and else of the second one.
//! - It is what was changed, read and listed between the sights before the observation and those of
//!   its look, by the tests of `casebook_watch` (`specs/Looks.antt`). What the recorder read itself
//!   comes after the look, and is nobody's.
//! - If something is seen while two or more lines are active, it isn't known which of them did it.
//!   The line then names them.
//!
//! Sessions are in the order in which they first appear in records, and are named by their places,
//! counted from 1 (`specs/Sessions.antt`). Their lines are numbered from 1 on. A number below the
//! greatest one that is of no line is that of a line of which no record was taken; what that line
//! did is then another line's, or nobody's (`specs/Missing.antt`).
//!
//! If allocation fails, calls return `NoMem` or `TypedError::NoMem`.
//!
//! Start reading at `typed.rt` and `line.rt`, then `span.rt`, `active.rt`, `seen.rt` and
//! `moment.rt`.
//!
//! # What is proved
//!
//! - [`typed_lines`] returns exactly the sessions and the lines that the definitions give for the
//!   first look and the items of the file `lines` [`sessions`, `lines`]. It returns them only if no
//!   record contradicts an earlier one [`ok`], and otherwise names the first one that does
//!   [`contradiction`].
//! - What an observation shows is found by the paths that its notes name alone. That it is what
//!   whole sights show is part of the proof of `lines`.
//! - Each change that observations show, and each reading and each listing while a line is active,
//!   is of exactly one line, in the order of the observations, and lines have no others
//!   (`what_is_seen_is_of_one_line`).
//! - [`observations`] splits the items of the file `lines` at its records.
#![tactic(auto)]

mod active;
mod first_records;
mod key;
mod laws;
mod line;
mod marks;
mod missing;
mod moment;
mod names;
mod observation;
mod seen;
mod span;
mod step;
mod typed;
mod typed_error;

pub use laws::what_is_seen_is_of_one_line;
pub use line::{Extent, LineName, Owner, TypedLine};
pub use observation::{Observation, observations};
pub use seen::{PathChange, Seen};
pub use span::Span;
pub use step::{Step, What};
pub use typed::{Session, Typed, typed_lines};
pub use typed_error::TypedError;

/// Allocation failed.
pub use retro_path::NoMem;
