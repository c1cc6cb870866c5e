//! What `casebook` can be asked for, and the words that ask for it.
//!
//! [`read_words`] returns the [`Request`] that the words of a command line make. A request names
//! documents, folders and spools, and says what is wanted of them; it doesn't read them. The
//! documents that a question about a log needs are its [`Sources`].
//!
//! [`TypedLines`] says which lines were typed between the [`Bounds`] of a request. [`help_text`]
//! says how the program is used, and [`Problem::words`] what is wrong with words.
//!
//! If allocation fails, calls return `NoMem` or [`WordsFault::NoMem`].
//!
//! Start reading at `request.rt` and `command_line.rt`. The options of `lines` are read by
//! `line_options.rt`, and those of commands about repairs by `repair_options.rt`.
//!
//! # What is proved
//!
//! - What words ask for is an equation: `read_words` returns the request that `request_in` of
//!   `specs/Request.antt` says, over `clap`'s definition of the command that they name
//!   (`specs/Words.antt`), or the first problem that the words have [`Means`]. It fails in no other
//!   way, unless memory runs out.
//! - A bound is the number of a line if the text is a number, and otherwise a time. A last bound
//!   without seconds is the last second of its minute or of its day (`specs/Bounds.antt`).
//! - A line was typed between bounds if the last of its times says so [`typed_lines`, `is_typed`].
//! - The documents that a question needs are an equation (`specs/Sources.antt`).
//! - What `help_text` says is a constant, and so is what `Problem::words` says, whose bytes are
//!   printable [`printable`].
#![tactic(auto)]

mod bound;
mod bounds;
mod command_line;
mod document_help;
mod folder_help;
mod format;
mod help;
mod line_options;
mod lines_request;
mod options;
mod path_filters;
mod path_options;
mod problem;
mod query;
mod recorder_help;
mod repair_options;
mod repair_request;
mod request;
mod rounds;
mod shown;
mod sources;
mod topic;
mod typed_lines;
mod words;

pub use bound::Bound;
pub use bounds::Bounds;
pub use command_line::read_words;
pub use format::Format;
pub use help::help_text;
pub use lines_request::LinesRequest;
pub use path_filters::{NamedPath, PathFilters};
pub use problem::Problem;
pub use query::{Query, repair_sources};
pub use repair_request::{BytesOf, CatRequest, PageRequest, RepairRequest, ShowRequest};
pub use request::{CompareRequest, FolderRepair, Request};
pub use rounds::Rounds;
pub use shown::{Extras, ShownPart};
pub use sources::Sources;
pub use topic::Topic;
pub use typed_lines::TypedLines;
pub use words::WordsFault;

/// Allocation failed.
pub use retro_tree::NoMem;
