//! Scripts, and recordings of them.
//!
//! A [`Script`] is a first state and the lines that sessions run from it. The type guarantees that
//! the first state is lawful, that line numbers are at least 1 and rise, and that each line's
//! session exists in the first state.
//!
//! A [`Recording`] has a [`Noted`] for each line: the notes of what the line read and changed, and
//! what it printed. [`keep`] and [`keep_alone`] run the lines of a script in order and record
//! them. [`Recording::new`] makes a recording of its parts, or refuses them.
//! [`Recording::of_lawful`] also says why it refuses them.
//!
//! [`replay`] runs the lines of a script one by one and records nothing. [`check`] runs those of a
//! recording, to tell whether each is as noted, and [`first_unlike`] finds the first one that
//! isn't.
//!
//! A recording can begin at a later line than line 1: [`Recording::trim`] gives up the lines before
//! a number, and keeps the state that they left. A [`TrimFault`] says why it can't.
//!
//! An [`Edit`] leaves out a line or replaces its text. [`Script::edit`] returns the edited script,
//! or an [`EditFault`]: two different edits name one line, no line has an edited number, or memory
//! ran out. [`Recording::test_edits`] tests edits of a recording's lines. An [`EditRefusal`] says
//! why they can't be made: also if the recording begins after an edited line. [`Edits`] finds the
//! edit of a line by its number.
//!
//! If allocation fails, calls return `NoMem`, alone or as a variant of their error, and leave
//! borrowed arguments unchanged.
//!
//! Start reading at `script.rt`, then `edit.rt`, `recorder.rt` and `recording.rt`.
//!
//! # What is proved
//!
//! - `Script::new` returns the script of its parts, or the first refusal in the order limits, tree,
//!   numbers, sessions; `Script::of_lawful` the same over a state that is lawful. `Script::edit`
//!   returns the script with its edited lines, or the refusal of the least number that two
//!   different edits name, and then of the least one that no line has; both are found without
//!   memory. `Recording::test_edits` returns the same refusals for the lines of a recording, and
//!   between them that of the least number, from 1 on, below the one at which it begins. Editing by
//!   two lists in turn that name different lines edits by both (`edits_in_turn_edit_both`).
//! - A `Script`'s type keeps that its first state is lawful, its numbers rise from 1, and its
//!   sessions exist.
//! - `keep` and `keep_alone` return a recording of the script [`recording`]: it has the script's
//!   first state and lines, each line's notes certify it and hold in the state before it, and the
//!   line prints the noted output there. So its last state and its outputs are those of running the
//!   lines one by one [`outcome`]. It begins at 1 [`begins`].
//! - `replay` returns the last state and the outputs of running a script's lines one by one. If
//!   `check` returns true, a recording is one of the script that its lines are. `first_unlike`
//!   returns the first line that isn't as noted, with its run [`some`]: the lines before it are
//!   recorded as they run, and the run, in the state that they leave, has other notes or another
//!   output (`specs/Unlike.antt`). A recording may have other notes than a run, so this doesn't say
//!   that it isn't one. If it returns `None`, the recording is one of its own lines [`none`].
//! - A `Recording`'s type keeps that its first state is lawful, it begins at 1 or later, its
//!   numbers rise and none is below the one at which it begins, each line's session exists and is
//!   the only one that its notes name, each noted answer is of its query's kind, and each noted
//!   change is lawful where it is made [`well_formed`, of each reader]. `Recording::new` returns
//!   the recording of its parts exactly if this holds of them [`exact`, `value`].
//!   `Recording::of_lawful` returns the recording of a lawful state and of lines whose notes are
//!   their session's, with answers of their queries' kinds; or the first refusal in the order
//!   numbers, sessions, changes [`value`, `well_formed`, `fault`]. `Recording::of_well_formed`
//!   returns the recording of parts for which this is known.
//! - `Recording::trim` returns the recording that begins at a number, or `BeforeCheckpoint` exactly
//!   if the number is below the one at which the recording begins: the lines from the number on,
//!   over the recorded state before them [`trimmed`]. Of a recording of a script it is a recording
//!   of the script that begins there [`recording`] (`specs/Trim.antt`). `Recording::run_of` finds
//!   the line with a number, and `last` returns the state after the noted changes [`value`].
#![tactic(auto)]

mod edit;
mod edit_fault;
mod edit_test;
mod edits;
mod laws;
mod noted;
mod numbered;
mod recorder;
mod recording;
mod recording_fault;
mod replaying;
mod requirements;
mod script;
mod split;
mod trim_fault;
mod unlike;

pub use edit::Edit;
pub use edit_fault::{EditFault, EditRefusal};
pub use edits::Edits;
pub use laws::{edits_in_turn_edit_both, recordings_run_their_scripts};
pub use noted::Noted;
pub use recorder::{keep, keep_alone};
pub use recording::Recording;
pub use recording_fault::RecordingFault;
pub use replaying::replay;
pub use script::{LinesFault, Script, ScriptFault, ScriptLine};
pub use trim_fault::TrimFault;
pub use unlike::{Unlike, check, first_unlike};
