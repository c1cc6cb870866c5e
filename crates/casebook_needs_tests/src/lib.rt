//! Tests of `casebook_needs`, over public items alone.
//!
//! The rules are tried on lines as people type them, over small states. What rows want is worked
//! out by hand from the rules.
#![tactic(auto)]

#[cfg(test)]
mod calls;
#[cfg(test)]
mod lines;
#[cfg(test)]
mod rows;
#[cfg(test)]
mod states;
#[cfg(test)]
mod tables;
#[cfg(test)]
mod texts;
