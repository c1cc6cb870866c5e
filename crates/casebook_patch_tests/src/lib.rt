//! Tests of `casebook_patch`: pairs of trees, and the patch between them.
//!
//! What rows want was printed by git 2.39.5, with `git diff --full-index --binary --no-renames`.
//! Git writes names with spaces without quotes, and compresses files that aren't text. So names
//! with spaces are quoted by hand, and the binary form was worked out by another program from RFC
//! 1950 and from what git's `literal` is. `git apply` takes all of these patches, forwards and
//! backwards. The directories of rows are those in which folders differed after `git apply`.
#![tactic(auto)]

#[cfg(test)]
mod calls;
#[cfg(test)]
mod rows;
#[cfg(test)]
mod tables;
