//! Tests of `casebook_screen`, `casebook_check` and `casebook_json`, over public items alone. What
//! is wanted is written by hand, from the design of the program's output and from
//! `docs/FORMATS.md`.
//!
//! A header has a log, the edits of its lines, names of sessions, times of lines, and whether the
//! log is a recording or which of its lines a recorder observed. A row below it has a part of what
//! is shown of the repair, a line that is shown in full, or a pointer into its document (RFC 6901),
//! whose value is wanted as compact JSON.
#![tactic(auto)]

#[cfg(test)]
mod case_tables;
#[cfg(test)]
mod given;
#[cfg(test)]
mod line_tables;
#[cfg(test)]
mod lines;
#[cfg(test)]
mod logs;
#[cfg(test)]
mod market_table;
#[cfg(test)]
mod rows;
#[cfg(test)]
mod seen_table;
#[cfg(test)]
mod show;
#[cfg(test)]
mod source_table;
#[cfg(test)]
mod unknown_table;
#[cfg(test)]
mod unlike;
