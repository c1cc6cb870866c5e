//! Tests of `casebook_shell` over what bash 5.2 printed of its functions, aliases and options.
//!
//! What rows want was decided by hand, by what the shell does with the line.
#![tactic(auto)]

#[cfg(test)]
mod rows;
#[cfg(test)]
mod tables;
