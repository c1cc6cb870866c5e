//! Tests of `casebook_typed`, over public items alone.
//!
//! A history is a list of notes and records, as `history.rt` reads it. What rows want is worked out
//! by hand, from the rules of the crate.
#![tactic(auto)]

#[cfg(test)]
mod calls;
#[cfg(test)]
mod history;
#[cfg(test)]
mod rows;
#[cfg(test)]
mod tables;
