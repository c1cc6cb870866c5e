//! The recording that a case explains.
//!
//! A case has what a recorder saw of a machine (`casebook_case`). [`told_case`] works out the lines
//! that it says, with what each of them did (`casebook_typed`, `casebook_import`), and the texts of
//! Retro's shell that explain them (`casebook_explain`). [`case_log`] returns the log of a case's
//! document, for `retro`. Each line of the case is one or several lines of the log, in order.
//!
//! If allocation fails, calls return `NoMem` as a variant of their error.
//!
//! Start reading at `telling.rt`, then `logging.rt`.
//!
//! # What is proved
//!
//! - [`told_case`] returns the sessions and the lines that a case says [`sessions`, `lines`], and
//!   told lines that tell exactly these lines, from the state that the case says was there before
//!   them (`IsToldOf` in `specs/Told.antt`) [`ok`]. Its fault is the first one that there is
//!   [`err`].
//! - [`case_log`] returns the log of the recording of such lines, with the notes of their runs alone,
//!   for bytes that are a case (`IsLogOf` in `specs/Logs.antt`) [`ok`]. Otherwise its fault is that
//!   of the bytes or of the lines [`err`].
//! - [`CaseRefusal::line`] says a fault in words, and [`RecordingFault::line`] also what a line left
//!   that can't be there, as a path (`specs/Refusals.antt`).
#![tactic(auto)]

mod logging;
mod recording_fault;
mod refusal;
mod telling;

pub use logging::case_log;
pub use recording_fault::RecordingFault;
pub use refusal::CaseRefusal;
pub use telling::{ToldCase, told_case};

/// Allocation failed.
pub use retro_tree::NoMem;
