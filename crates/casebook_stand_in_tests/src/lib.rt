//! Tests of `casebook_stand_in` and `casebook_explain`, over public items alone.
//!
//! States and effects are written as words (`words.rt`). What rows want is worked out by hand, from
//! the profile of the shell.
#![tactic(auto)]

#[cfg(test)]
mod explaining;
#[cfg(test)]
mod rows;
#[cfg(test)]
mod tables;
#[cfg(test)]
mod telling;
#[cfg(test)]
mod told_tables;
#[cfg(test)]
mod words;
