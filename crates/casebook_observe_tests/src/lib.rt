//! Tests of `casebook_rows`, `casebook_spool` and `casebook_observe`, over public items alone.
//!
//! What rows want is worked out by hand, from the definitions of these crates and of records, and
//! digests are those that `sha256sum` prints. Spools and watched folders are in memory
//! (`memory.rt`, `worlds.rt`), and can be told to fail at a call.
#![tactic(auto)]

#[cfg(test)]
mod failing;
#[cfg(test)]
mod failing_tables;
#[cfg(test)]
mod field_tables;
#[cfg(test)]
mod fields;
#[cfg(test)]
mod line_tables;
#[cfg(test)]
mod memory;
#[cfg(test)]
mod note_tables;
#[cfg(test)]
mod reading;
#[cfg(test)]
mod rows;
#[cfg(test)]
mod spool_tables;
#[cfg(test)]
mod step_tables;
#[cfg(test)]
mod steps;
#[cfg(test)]
mod texts;
#[cfg(test)]
mod worlds;
#[cfg(test)]
mod writing;
#[cfg(test)]
mod writing_tables;
