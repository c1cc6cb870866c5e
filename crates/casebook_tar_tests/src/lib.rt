//! Tests of `casebook_tar` and `casebook_tar_tree` over streams that GNU tar 1.34 wrote, and over
//! faults in them.
//!
//! A stream is given as its parts, which `streams.rt` reads. The parts of a stream that tar wrote
//! are what `od` shows of it. What rows want is what `tar -tv --numeric-owner` says of the stream,
//! and for faults what the format says. What rows about trees want is
//! worked out from that by hand, by what `casebook_tar_tree` says of members.
#![tactic(auto)]

#[cfg(test)]
mod calls;
#[cfg(test)]
mod rows;
#[cfg(test)]
mod streams;
#[cfg(test)]
mod tables;
#[cfg(test)]
mod tree_calls;
#[cfg(test)]
mod tree_tables;
