//! Tests of `casebook_watch`, over public items alone.
//!
//! What one look says is a list of a path each and its sight, as `texts.rt` reads it. What rows
//! want is worked out by hand, from what each of the four lists and a delta is to have.
#![tactic(auto)]

#[cfg(test)]
mod calls;
#[cfg(test)]
mod rows;
#[cfg(test)]
mod tables;
#[cfg(test)]
mod texts;
