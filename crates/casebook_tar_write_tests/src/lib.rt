//! Tests of `casebook_tar_write` against streams that GNU tar 1.34 wrote.
//!
//! A row gives nodes as text, which `nodes.rt` reads, and the bytes of the stream that tar wrote
//! for such files (`--format=ustar` or `--format=pax`, one block at a time, with the time 0), as
//! `streams.rt` reads them. Tar and `casebook_tar_write` don't fill the header of records alike, so
//! rows with records compare what follows it. Rows that read streams back want what is said of the
//! nodes, in the form of `tar -tv --numeric-owner`.
#![tactic(auto)]

#[cfg(test)]
mod calls;
#[cfg(test)]
mod nodes;
#[cfg(test)]
mod rows;
#[cfg(test)]
mod streams;
#[cfg(test)]
mod tables;
