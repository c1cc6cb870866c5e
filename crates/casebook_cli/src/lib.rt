//! The program for people: the documents that it reads, and its answers.
//!
//! [`run_with`] answers the request that the words of the command line make, which
//! `casebook_request` reads. It reads the documents that the request names from a [`Documents`],
//! and writes the answer. If it returns [`Exit::Done`] or [`Exit::No`], it wrote exactly an answer
//! that `specs/Answers.antt` defines. If it returns [`Exit::Stopped`], it wrote nothing, and
//! [`Exit::message`] says why.
//!
//! If allocation fails, calls return `NoMem` or [`Stop::OutOfMemory`].
//!
//! Start reading at `program.rt`, then `answers.rt`. Requests are those of `request.rt` in
//! `casebook_request`, and the repairs that they ask for those of `casebook_repairs`.
//!
//! # What is proved
//!
//! - `run_with` writes, after `Done` and `No`, exactly a text that answers its words about the
//!   documents that they name [`runs`, by `Answers` of `specs/Answers.antt`]. What words ask for is
//!   an equation (`request_in` of `casebook_request`).
//! - `lines` is answered by the rows of exactly those lines of the log that pass the filters and
//!   were typed between the bounds, in order: as text that tells each row's values, or as a table or
//!   a list of numbers, an equation each [by `AreLines`]. A pattern is one that the text of its
//!   option is read as, with `^` and `$` as the ends of a line. A line was typed between bounds if the last row that the
//!   document with times has of it says so; a last bound without seconds is the last second of its
//!   minute or of its day. A name that is of no line's session is refused [`no_user`], and so is a
//!   time where no line has one [`no_times`].
//! - `show` is answered by the summary of a repair of the log without the lines of the list, and
//!   with other lines replaced, and on demand by why lines are run again and by diffs, or by one
//!   line in full, or by the summary as JSON; `page` by the page of the same repair [by `IsShown`,
//!   `IsPage`]. Nothing is refused of its edits, nor of how lines are run ahead [`accepted` of
//!   `IsRepairBy`]. The repair is exact if the log is a recording of its lines, and otherwise what
//!   choices for its lines come to, whether lines are run ahead or not. The summary says that the
//!   log is as its lines run only if it is a recording of them; that it never says no of what
//!   `retro record` wrote is only tested. The page tells exactly what that summary
//!   says, in order, and begins with its policy [`page` of `IsPageOf`].
//! - `cat` is answered by exactly the bytes that a path has at the end of such a repair, or that a
//!   line of it prints [by `IsBytes`]. There are none if no file is there, or one that stands for
//!   what isn't kept, and if the line is cancelled or stands as it was observed [by `StopsBytes`].
//!   `patch` is answered by the patch from the files at the end of the log to those at the end of the
//!   repair, without those that aren't kept [by `IsPatch`].
//! - With colours, each line of what `show` writes for people stands between two codes that its
//!   first byte chooses (`specs/Colours.antt`), and everything else is the same. What `lines`,
//!   `check` and, without colours, `show` write for people has no control code but newlines and
//!   tabs, and each other character can be seen and leaves its neighbours as they are [`harmless`
//!   of `AnswersQuery`].
//! - `check` is answered, after `Done`, by a text that says that the document is a script, or that
//!   it is the log of a recording of its lines, and only if it is one; or, after `No`, by the first
//!   line that isn't as noted and how, or by why the document is refused [by `IsChecked`]. What has
//!   a key `script` is read as a script, and all else as a log.
//! - `snapshot` is answered by the document of a snapshot of the folder or of the stream that is
//!   named [by `AnswersSnapshot`]; `compare` by the paths in which such a snapshot isn't as the log
//!   has them at its end [by `AnswersCompare`]; `restore` by the plan for the paths in which the
//!   log and its repair differ, or that takes a restore back [by `AnswersRestore`, `AnswersUndo`];
//!   `script` by the script of a snapshot's document and of two tables [by `IsScriptOf`]; `import`
//!   by the document of the case of what a spool holds [by `AnswersImport`]; `log` by the log of
//!   what tells the lines of the case that is named [by `IsLogOf`].
//! - After `Stopped` nothing was written [`unwritten`], and the `Stop` is one of `StopsWords`
//!   (`specs/Stops.antt`): the words are bad, a document can't be read, isn't a log, isn't UTF-8 or
//!   has no names and times, a pattern or a list is refused, no line has the number, or the repair
//!   or how lines are run ahead is refused; each as the definitions refuse it. A stream, a
//!   snapshot's document, a table or a case that is refused is named with the fault that it has. After
//!   `WriteFailed` a part of the answer was written, but not all of it, and it is returned exactly
//!   if the output failed [`write_failure`].
//! - All this is said where the documents, the folders and the spools are known (`bytes_of` of
//!   `Documents`, `holds` of `Folders`, `spools` of `Spools`). Of the files of a process nothing is
//!   known, so no proof speaks of what a file holds.
//! - `Exit::status` and `Exit::message` give the status and the line for standard error, whose
//!   characters are harmless, as it is a `SafeLine`. What `help` says is a constant.
#![tactic(auto)]

mod answer;
mod answers;
mod bytes;
mod cases;
mod checks;
mod colours;
mod comparing;
mod exit;
mod line_tests;
mod lines_answer;
mod messages;
mod pages;
mod patches;
mod patterns;
mod plain;
mod program;
mod recorder;
mod restores;
mod rows_text;
mod screens;
mod scripts;
mod snapshots;
mod status;
mod style;
mod summaries;
mod typed;

pub use exit::Exit;
pub use program::run_with;

/// What the program reads, and whom it tells how far it is.
pub use casebook_repairs::{Documents, Hindrance, Progress, ReadFault, Step};
/// Why there is no answer.
pub use casebook_repairs::{SearchedPart, Stop};
/// What is wrong with a command line.
pub use casebook_request::Problem;
/// What the answer is written to.
pub use retro_edge::Output;
/// Allocation failed.
pub use retro_tree::NoMem;
