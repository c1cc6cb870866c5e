//! Tests of `casebook_declare` over rows that bash 5.2 printed.
//!
//! What rows want is what the shell said of its variables. `checks/declares` compares more of them.
#![tactic(auto)]

#[cfg(test)]
mod calls;
#[cfg(test)]
mod rows;
#[cfg(test)]
mod tables;
