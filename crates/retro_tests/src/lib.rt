//! Tests of the layers below documents: paths, lines, states, overlays and scripts.
#![tactic(auto)]

#[cfg(test)]
mod changes;
#[cfg(test)]
mod layout;
#[cfg(test)]
mod paths;
#[cfg(test)]
mod questions;
#[cfg(test)]
mod rows;
#[cfg(test)]
mod scripts;
#[cfg(test)]
mod state_tables;
#[cfg(test)]
mod states;
#[cfg(test)]
mod tables;
#[cfg(test)]
mod trees;
#[cfg(test)]
mod values;
