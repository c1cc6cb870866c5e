//! Tests of utilities and lines, with the notes that they leave. Each line is run in every way.
#![tactic(auto)]

#[cfg(test)]
mod command_table;
#[cfg(test)]
mod json;
#[cfg(test)]
mod lines;
#[cfg(test)]
mod list_table;
#[cfg(test)]
mod rows;
#[cfg(test)]
mod run_table;
#[cfg(test)]
mod runs;
#[cfg(test)]
mod shown;
#[cfg(test)]
mod states;
#[cfg(test)]
mod tables;
#[cfg(test)]
mod texts;
#[cfg(test)]
mod unsupported_table;
#[cfg(test)]
mod word_table;
