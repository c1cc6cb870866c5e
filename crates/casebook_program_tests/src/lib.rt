//! Tests of the program for people, over public items alone: its words, its documents and its
//! exits. What is wanted is written by hand, from the design of the program.
#![tactic(auto)]

#[cfg(test)]
mod accounts;
#[cfg(test)]
mod cases;
#[cfg(test)]
mod memory;
#[cfg(test)]
mod recorder;
#[cfg(test)]
mod restores;
#[cfg(test)]
mod rows;
#[cfg(test)]
mod scripts;
#[cfg(test)]
mod snapshots;
#[cfg(test)]
mod status;
#[cfg(test)]
mod streams;
#[cfg(test)]
mod tables;
#[cfg(test)]
mod writers;
