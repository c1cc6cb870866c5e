//! Tests of documents and of the whole program, also over readers and writers that fail.
#![tactic(auto)]

#[cfg(test)]
mod documents;
#[cfg(test)]
mod edges;
#[cfg(test)]
mod forged_table;
#[cfg(test)]
mod log_tables;
#[cfg(test)]
mod logs;
#[cfg(test)]
mod programs;
#[cfg(test)]
mod repair_tables;
#[cfg(test)]
mod rows;
#[cfg(test)]
mod tables;
#[cfg(test)]
mod trim_table;
