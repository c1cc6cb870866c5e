//! What a log or a case says: a recording, and of a case the lines of the machine that the recording
//! explains.
//!
//! [`read_account`] reads a log or a case. Of a log it returns the recording. Of a case it returns
//! the recording that explains what was seen (`casebook_recording`), with what each line needs as
//! notes of its first text, and a [`MachineLine`] for each line of the case.
//!
//! A line of a case is one or several texts of its recording, which are numbered from 1 on. Lines of
//! cases have numbers of their own, from 1 on too, and people name lines by these.
//! [`Account::text_edits`] turns edits of lines into edits of texts, and [`Account::shown`] a
//! recording of texts into one of lines: each line has the text that was typed, all that its texts
//! did, and nothing of what only Retro has below `/.casebook`. [`Account::shown_lines`] does the
//! same for what a repair did with each text. Of a log all of these change nothing.
//!
//! If allocation fails, calls return `NoMem`, alone or as a variant of their error.
//!
//! Start reading at `account.rt`, then `machine_line.rt`, `lacks.rt`, `text_edits.rt` and
//! `shown.rt`.
//!
//! # What is proved
//!
//! - [`read_account`] returns the recording of a log, or the recording with the needs of told lines
//!   that tell the lines of a case, and these lines [`ok`, by `IsAccountOf` of
//!   `specs/Accounts.antt`]. Each text of a case runs as its recording has it (`recorded`). A
//!   document that is no log is a case if it says that it is one; if it doesn't, its refusal is that
//!   of a log, and if it does, the fault of the case [`err`].
//! - [`Account::text_edits`], [`Account::known_lines`] and [`Account::shown_lines`] are equations
//!   (`specs/Edits.antt`, `specs/Shown.antt`). A repair that says of each
//!   text what it did with it says so of each line that is shown, in order, and of no other
//!   (`proofs/Matching.antt`).
//! - [`Account::shown`] returns the recording that `specs/Shown.antt` defines [`ok`]. It fails only
//!   if that has no such recording's form [`err`], which isn't known to be possible.
//! - What no line touches can be left out of the first state: it changes no note and no output
//!   ([`what_no_line_touches_changes_nothing`]).
#![tactic(auto)]

mod account;
mod account_fault;
mod attributes;
mod lacks;
mod laws;
mod machine_line;
mod ours;
mod reading;
mod shown;
mod shown_lines;
mod text_edits;

pub use account::{Account, Machine};
pub use account_fault::AccountFault;
pub use attributes::SeenAttributes;
pub use laws::what_no_line_touches_changes_nothing;
pub use machine_line::MachineLine;
pub use reading::{read_account, read_shown};

/// Allocation failed.
pub use retro_tree::NoMem;
