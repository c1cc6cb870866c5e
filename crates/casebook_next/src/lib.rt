//! Which line of a machine has to be run for real next in a repair.
//!
//! A case's recording has texts for each line (`casebook_account`). [`next_line`] returns the line of
//! the first text that has to be run for real, by what a repair did with each (`casebook_real`): a
//! text of an observed line that was run again, or the text of a modelled line whose session would
//! have other functions, aliases or options. All lines before it stand, so the repaired state before
//! it is that in which the machine would have been.
//!
//! If allocation fails, calls return `NoMem`.
//!
//! Start reading at `specs/Next.antt`, then `next.rt`.
//!
//! # What is proved
//!
//! - [`next_line`] returns that line [by `IsNextLine`].
#![tactic(auto)]

mod next;
mod texts;

pub use next::next_line;

/// Allocation failed.
pub use retro_tree::NoMem;
