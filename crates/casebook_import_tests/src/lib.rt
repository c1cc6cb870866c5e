//! Tests of `casebook_import`, `casebook_case`, `casebook_recording` and `casebook_account`, over
//! public items alone.
//!
//! A first look and a history are lists of notes and records, as `history.rt` reads them. What rows
//! want is worked out by hand, from the rules of the crate and the profile of the shell.
#![tactic(auto)]

#[cfg(test)]
mod account_tables;
#[cfg(test)]
mod accounts;
#[cfg(test)]
mod calls;
#[cfg(test)]
mod case_tables;
#[cfg(test)]
mod cases;
#[cfg(test)]
mod history;
#[cfg(test)]
mod rows;
#[cfg(test)]
mod tables;
