//! Tests of `casebook_view` and `casebook_cause`, over public items alone. What is wanted is worked
//! out by hand, from the design of the program's output.
#![tactic(auto)]

#[cfg(test)]
mod answers;
#[cfg(test)]
mod causes;
#[cfg(test)]
mod filters;
#[cfg(test)]
mod given;
#[cfg(test)]
mod listed;
#[cfg(test)]
mod parts;
#[cfg(test)]
mod rows;
#[cfg(test)]
mod tables;
#[cfg(test)]
mod trees;
#[cfg(test)]
mod words;
