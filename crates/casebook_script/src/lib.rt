//! Makes the document of a script from a tree and two tables of text.
//!
//! An administrator writes the tables of sessions and of lines by hand, or with a tool such as
//! `awk`. [`script_of_tables`] returns the document with the tree of a state, and with the sessions
//! and the lines of the tables. `retro record` reads it. If a table has a fault, the [`TableFault`]
//! says in which row.
//!
//! A row costs time in proportion to its length, times the logarithm of the sessions or of its
//! variables. The tables, the script's JSON value and its text are in memory at the same time.
//!
//! If allocation fails, calls return `NoMem`, alone or as a variant of their error.
//!
//! Start reading at `document.rt`, then `sessions.rt`, `lines.rt`, `cells.rt` and `table_row.rt`.
//!
//! # What is proved
//!
//! - `script_of_tables` returns the text that a definition over the bytes of the tables gives, or
//!   the fault that applies first [`text`]: the rows of a table and their places
//!   (`specs/Rows.antt`), the texts and the numbers of cells (`specs/Cells.antt`), the sessions
//!   (`specs/Sessions.antt`, `specs/Paths.antt`), the lines (`specs/Lines.antt`), and the document
//!   of a script (`specs/Scripts.antt`).
//! - If the tree is lawful and no name in it has a NUL, `read_script` of `retro_log` reads that
//!   text as the script of the tree and the tables [`again`].
#![tactic(auto)]

mod cells;
mod document;
mod fault;
mod lines;
mod paths;
mod row_error;
mod sessions;
mod table_row;

pub use document::script_of_tables;
pub use fault::{RowFault, Table, TableFault};

/// Allocation failed.
pub use retro_path::NoMem;
