//! Lines that a real shell ran: which of them has to be run for real next in a repair, and what the
//! repair then comes to.
//!
//! A recording of a real machine has texts of Retro's shell for each line that was typed
//! (`casebook_explain`). Those of an observed line do what it did, whatever the line itself would
//! do in another state. What it depends on, its needs, are notes of its first text. So a repair
//! keeps the texts of an observed line while all that they noted is as it was. If it runs one of
//! them again, though no edit names it, the line has to be run for real, in the repaired state
//! before it. What it leaves there becomes its new text, and so on, line by line.
//!
//! [`next_to_run`] returns the first text for which that is so, by what a repair did with each
//! text. Other texts rest on notes that the repair doesn't compare: those of modelled lines, on
//! their session's functions, aliases and options, and new texts, on what was noted when the line
//! was run for real. [`first_without_basis`] finds the first one for which these no longer hold.
//!
//! The laws say what a repair comes to in which no text is found, and what is so in the state
//! before the first one. They are about any function `real` from typed lines and states to states:
//! nothing is known of a real shell.
//!
//! If allocation fails, calls return `NoMem`.
//!
//! Start reading at `specs/World.antt` and `laws.rt`, then `next.rt` and `based.rt`.
//!
//! # What is proved
//!
//! - If no text has to be run for real, the repaired state is that of really running all lines but
//!   those that are left out, one by one, from the first state (`repairs_hold_for_real_lines`). If
//!   none before a number has to be, the state before the number in the repaired recording is that
//!   of really running the lines before it (`states_before_the_next_hold_for_real_lines`). The
//!   repair has to be exact (`IsRepair`). The premises on the world are `World` in
//!   `specs/World.antt`: an unedited line really does what its texts do, wherever all that they
//!   noted is as it was, or, if it is modelled, its own notes hold; and what runs in the place of a
//!   replaced line does what the line really does there. The lines are given, with the texts of
//!   each (`AreLinesOf`). Retro's shell itself meets these premises, for any edits
//!   (`retro_shell_meets_the_premises`).
//! - [`next_to_run`] returns the number of the first text of an observed line that a repair ran
//!   again though no edit names it, or `None` if there is none [`verdicts`]. In an exact repair one
//!   of its notes doesn't hold in the repaired state before it, and those of all observed texts
//!   before it that nothing edits do; if it returns `None`, those of all such texts do [`notes`].
//! - [`first_without_basis`] returns the index of the first text whose notes don't hold before it
//!   in the repaired recording, or `None` if all do. The repaired state before a line, of which the
//!   premises speak, is that before its number in this recording
//!   (`lines_are_placed_in_the_repaired_recording`).
#![tactic(auto)]

mod based;
mod laws;
mod next;
mod numbers;

pub use based::{BasedText, first_without_basis};
pub use laws::{
    lines_are_placed_in_the_repaired_recording, repairs_hold_for_real_lines,
    retro_shell_meets_the_premises, states_before_the_next_hold_for_real_lines,
};
pub use next::next_to_run;

/// Allocation failed.
pub use retro_tree::NoMem;
