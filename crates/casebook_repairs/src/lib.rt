//! The repair that a request asks for, of the documents that it names.
//!
//! [`read_inputs`] reads the documents of a request from a [`Documents`], and [`asked_repair`]
//! repairs the log or the case among them: an [`AskedRepair`] is its recording and the repair, both
//! as they are shown, with the names and times of lines, and with what a recorder says of them.
//! [`shown_account`] and [`known_of`] return the recording of a document and its names and times
//! without a repair. Whoever waits is a [`Progress`], and is told how far the work is. A [`Stop`]
//! says why there is no answer, here and in `casebook_cli`.
//!
//! If allocation fails, calls return `NoMem` or [`Stop::OutOfMemory`].
//!
//! Start reading at `reading.rt`, then `repairs.rt`.
//!
//! # What is proved
//!
//! - `read_inputs`, `read_document` and `read_if_named` return the documents with the names that
//!   are given [by `AreInputs`], or say which of them can't be read [`err`, by `StopsReading`], if
//!   it is known what the documents are (`bytes_of` of `Documents`).
//! - `asked_repair` returns the repair by the edits that are asked for: the lines of the list are
//!   left out, others are replaced, and nothing is refused of the edits, nor of how lines are run
//!   ahead [`ok`, by `IsAsked`]. It is exact if the log is a recording of its lines, and otherwise
//!   what choices for its lines come to, whether lines are run ahead or not [`IsRepairBy`]. It says
//!   that a log is as its lines run only if it is [`checked`]. Its lines match those of the
//!   recording [`lines`]. If there is none, the fault is one that the account, the names, the list
//!   or the edits have [`err`, by `StopsAsked`].
//! - `known_of` returns the names and times that a machine says, and then those of an about
//!   document [by `AreLabels`].
//! - `known_attributes` returns the modes and owners that the paths at a recording's end were last
//!   seen to have [by `AreKnown`].
#![tactic(auto)]

mod accounts;
mod attributes;
mod document;
mod documents;
mod inputs;
mod knowledge;
mod labels;
mod line_lists;
mod progress;
mod reading;
mod repairing;
mod repairs;
mod searched;
mod stop;

pub use accounts::{SeenLines, case_stop, seen_by, shown_account, source_by};
pub use attributes::known_attributes;
pub use document::Document;
pub use documents::{Documents, Hindrance, ReadFault};
pub use inputs::Inputs;
pub use knowledge::Knowledge;
pub use labels::known_of;
pub use progress::{Progress, Step};
pub use reading::{read_document, read_if_named, read_inputs};
pub use repairing::Check;
pub use repairs::{AskedRepair, asked_repair};
pub use searched::SearchedPart;
pub use stop::Stop;

/// Allocation failed.
pub use retro_tree::NoMem;
