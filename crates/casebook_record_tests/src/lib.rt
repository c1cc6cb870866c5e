//! Tests of `casebook_record` over records that are written as lists of fields.
//!
//! What rows want is what the format says (`docs/FORMATS.md`, "Record").
#![tactic(auto)]

#[cfg(test)]
mod calls;
#[cfg(test)]
mod rows;
#[cfg(test)]
mod tables;
#[cfg(test)]
mod texts;
