//! The program: its command line, its input and output, and its answers.
//!
//! [`run_with`] reads an input to its end, answers the request of the command line, and writes the
//! answer. If it returns [`Exit::Done`], it wrote exactly the text that `specs/Program.antt`
//! defines.
//!
//! If allocation fails, [`run_with`] returns [`Exit::OutOfMemory`] and writes nothing. A part of
//! the input may have been read.
//!
//! Start reading at `program.rt`, then `words.rt` and `answers.rt`.
//!
//! # What is proved
//!
//! - For input bytes that are a script, `replay` is proved to write exactly the report of running
//!   the edited lines, in order, from the script's first state; `record` writes the log of a
//!   recording of the script [`runs` of `run_with`, after `Done`]. For input bytes that are a log,
//!   `check` writes `yes` only if the log is a recording of its lines, and `no` only for a log
//!   [`runs`]; that a recording never gets `no` is only tested. What a terminal or a file makes of
//!   the bytes is outside any proof.
//! - For input bytes that are a log, `repair` writes the report of a repair. If the log is a
//!   recording of its lines, the repair is exact: the tree, the sessions and the outputs are those
//!   of running the edited lines one by one, the compensations are the lines whose output differs,
//!   the redone lines the replaced ones and those whose notes don't hold, and the met lines the
//!   replaced ones and those that use a cell that differs; and `relog` writes the log of a
//!   recording of the edited lines [`runs`]. For any other log the repair is what choices for its
//!   lines come to, as `retro_redo` says [`runs`, by `settled` of `IsRepairOf`]. `relog`
//!   keeps the number at which the log begins.
//! - For input bytes that are a log, `trim` writes exactly the log of the lines from a number on
//!   over the recorded state before them, unless the log begins later [`runs`, by `trim_answer`].
//! - What `record`, `relog` and `trim` write is read again as the same recording, unless a name in
//!   it has a NUL. This holds of forged logs too. So what a later run does with it is what it does
//!   with that recording [`runs`, by `again` of `IsLogOf`, `IsRepairedLog` and `IsTrimmedLog`].
//! - After `Refused` its number is that of the first refusal; after `WriteFailed` a part of the
//!   answer from its start, maybe nothing, but not all of it, was written [`runs`]. After
//!   `Refused`, `OutOfMemory` and `ReadFailed` nothing was written [`unwritten`]. Bad words lead to
//!   refusal 31 or to `OutOfMemory` alone [`words`], and the input isn't read then [`unread`].
//! - `ReadFailed` comes only if the `Input` recorded a failed `read` or 4,294,967,295 calls that
//!   found no end, and always if it recorded a failure in this run [`read_failed`, `read_failure`];
//!   `WriteFailed` only if the `Output` recorded a failed `write`, and always if it did so in this
//!   run [`write_failed`, `write_failure`]. That these records are true is only tested.
//! - `Exit::status` and `Exit::write_message` give the status and the line on standard error.
//!   `main` in `retro` calls these; it is proved safe and has no contract.
#![tactic(auto)]

mod answers;
mod ending;
mod exit;
mod input;
mod program;
mod repair_options;
mod repair_report;
mod replacements;
mod report;
mod stop;
mod words;

pub use exit::Exit;
pub use input::{Input, MOST_READS};
pub use program::run_with;
pub use stop::BAD_WORDS;

/// What the answer is written to.
pub use retro_edge::Output;
