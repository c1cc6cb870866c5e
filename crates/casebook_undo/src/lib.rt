//! The undo file of a restore: its rows, written before the first step, and read again.
//!
//! An undo file is one JSON object (RFC 8259), on one line:
//! `{"at":"/srv","rows":[[path,before,after],..],"undo":1}`. Its keys are in byte order. `at` is
//! the path of the folder in the trees. A row has a path, what it held, and what it is to hold:
//! `null` for nothing, `["dir",mode,uid,gid]` or `["file",hex,mode,uid,gid]`. Paths are those of a
//! script, the numbers are decimal, and `hex` has the bytes of the file.
//!
//! Start reading at `undo_file.rt`, then `writing.rt` and `reading.rt`.
//!
//! If allocation fails, calls return `NoMem` as a variant of their error.
//!
//! # What is proved
//!
//! - `write_rows` returns the text that `specs/Documents.antt` defines [`text`], and `read_rows`
//!   reads it as the same path and the same rows [`again`]. It fails with `Unwritable` exactly if a
//!   row has something that is blocked or a mode above `MODE_LIMIT`, unless memory runs out
//!   [`writable`, `unwritable`].
//! - `read_rows` returns what the bytes say, by an equation with a definition over `serde_json`'s
//!   values (`specs/Reading.antt`), or the first fault: of the text, of its parts, of the rows one
//!   by one, and of their order (`IsReadOf`). So what was written is read as it was, unless memory
//!   runs out (`written_rows_read_back`).
#![tactic(auto)]

mod cell_fault;
mod laws;
mod limits;
mod node_cells;
mod path_cell;
mod reading;
mod row_cells;
mod undo_fault;
mod undo_file;
mod values;
mod write_fault;
mod writing;

pub use laws::written_rows_read_back;
pub use limits::MODE_LIMIT;
pub use reading::read_rows;
pub use undo_fault::UndoFault;
pub use undo_file::UndoFile;
pub use write_fault::WriteFault;
pub use writing::write_rows;

/// Allocation failed.
pub use retro_path::NoMem;
