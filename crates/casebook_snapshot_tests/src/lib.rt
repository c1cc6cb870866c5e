//! Tests of `casebook_snapshot` over a listing in memory, of `casebook_snapshot_read`, and of
//! `casebook_script`, over public items alone.
//!
//! A folder is a list of a path each and what is there, as `texts.rt` reads them. What rows want is
//! worked out by hand, from what a tree can hold and from the paths to skip.
#![tactic(auto)]

#[cfg(test)]
mod calls;
#[cfg(test)]
mod documents;
#[cfg(test)]
mod rows;
#[cfg(test)]
mod scripts;
#[cfg(test)]
mod tables;
#[cfg(test)]
mod texts;
