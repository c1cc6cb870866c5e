//! Documents: JSON texts (RFC 8259) that hold scripts and logs.
//!
//! [`read_script`] and [`read_log`] return the script or the recording that a document holds, or
//! the first refusal, as `specs/Document.antt` defines both. They validate each part of a document
//! as a whole before the next part. If the tree, the sessions or the lines have several faults,
//! the refusal is the worst of that part.
//!
//! A log has one of two versions. Version 2 says at which line its recording begins. Version 1
//! doesn't, and begins at line 1. [`read_log`] reads both, and [`write_log`] writes version 2, as
//! `specs/LogText.antt` defines it.
//!
//! [`read_script_line`], [`read_log_line`] and [`line_number`] read a single value of a document.
//! They are for callers that look for the value for which a document is refused.
//!
//! [`check`] of `retro_keep`, which tests whether a recording is one of its own lines, is exported
//! here too.
//!
//! Documents and reports are made of the JSON values of states and notes, which `retro_json` reads
//! and writes. This crate exports those that reports need.
//!
//! If allocation fails, calls return `NoMem`, alone or as a variant of their error, and leave
//! borrowed arguments unchanged.
//!
//! Start reading at `reading/log.rt`, then `reading/members.rt`, which reads the documents of both
//! kinds, and `reading/log_line.rt`.
//!
//! # What is proved
//!
//! - `read_script` returns the script that the bytes are, or the refusal that applies first, by an
//!   equation with a definition over `serde_json`'s values.
//! - `read_log` returns the recording that the bytes are, or the refusal that applies first, in the
//!   same way. It reads both versions; a log of version 1 begins at line 1. Within its lines the
//!   worst refusal of the whole list counts. Its notes are their line's, and each change is lawful
//!   where it is made; answers aren't compared with the states.
//! - `read_script_line`, `read_log_line` and `line_number` return one line, or the number of one,
//!   or its refusal, in the same way.
//! - `write_log` returns the log of a recording in version 2, byte for byte [`text`]. Reading it
//!   gives that recording again, if its notes keep the limits of files and of values, and no name
//!   of a path or of a listing has NUL [`again`]. The notes of a recording of a script keep the
//!   limits, and so do those of a recording that was read itself [`fits`].
#![tactic(auto)]

mod reading;
mod writing;

pub use reading::{line_number, read_log, read_log_line, read_script, read_script_line};
pub use retro_json::{LogFault, Part, Refusal, hex_value, sessions_value, tree_value};
pub use retro_keep::check;
pub use writing::write_log;
