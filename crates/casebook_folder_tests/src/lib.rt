//! Tests of `casebook_folder` over a folder in memory, and of the undo files of its rows, over
//! public items alone.
//!
//! A tree and a folder are lists of a path each and what is there, as `texts.rt` reads them. What
//! rows want is worked out by hand: from what a plan says of a path, and from what the folder holds
//! before and after.
#![tactic(auto)]

#[cfg(test)]
mod calls;
#[cfg(test)]
mod rows;
#[cfg(test)]
mod stops;
#[cfg(test)]
mod tables;
#[cfg(test)]
mod texts;
#[cfg(test)]
mod undo_calls;
#[cfg(test)]
mod undo_tables;
