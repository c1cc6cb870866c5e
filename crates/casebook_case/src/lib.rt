//! The document of a case: what a recorder saw of a machine, in one file.
//!
//! A case is one JSON object (RFC 8259), on one line:
//! `{"case":1,"contents":["6869",..],"first":"..","lines":"..","unseen":".."}`. Its keys are in byte
//! order. `first`
//! and `lines` are the files of a spool with these names (`casebook_spool`), as they are: the first
//! look at the watched folders, and the observations since. `contents` are the bytes of files that
//! their notes name, each once, as hexadecimal digits.
//!
//! Nothing in a case is worked out: which lines there are, what each of them did and which of them
//! are modelled is worked out of the observations each time that the case is read. So no case can
//! say of a line what its observations don't say.
//!
//! Bytes are found by their SHA-256 digest, which is computed when a case is read. So bytes that
//! were altered are missing.
//!
//! If allocation fails, calls return `NoMem` as a variant of their error.
//!
//! Start reading at `case.rt`, then `reading.rt`, `checking.rt`, `source.rt` and `importing.rt`.
//!
//! # What is proved
//!
//! - [`read_case`] returns the case that bytes are, or the first fault, by an equation with a
//!   definition over `serde_json`'s values (`specs/Reading.antt`, `specs/Cases.antt`). All bytes are
//!   there that the notes of a case name, under their own digests.
//! - [`spool_case`] returns the document of a spool's case: the texts of its files `first` and
//!   `lines`, and bytes that it keeps. It is read as what these say, and they say a case
//!   (`specs/Written.antt`). So what `read_case` returns of it is what the spool says.
#![tactic(auto)]

mod case;
mod case_fault;
mod checking;
mod importing;
mod reading;
mod source;
mod values;

pub use case::Case;
pub use case_fault::CaseFault;
pub use importing::spool_case;
pub use reading::read_case;
pub use source::SpoolSource;

/// Allocation failed.
pub use retro_path::NoMem;
