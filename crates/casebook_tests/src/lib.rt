//! Tests of the libraries of `casebook` below views, over public items alone: safe texts, lists and
//! diffs, words, about documents, places of faults, and the profile.
//!
//! The tables are texts of rows, as `retro_rows` says. What rows want comes from the rules of
//! display, of HTML, of lists and of documents, and is worked out by hand.
#![tactic(auto)]

#[cfg(test)]
mod diffs;
#[cfg(test)]
mod document_tables;
#[cfg(test)]
mod documents;
#[cfg(test)]
mod profile;
#[cfg(test)]
mod profile_table;
#[cfg(test)]
mod rows;
#[cfg(test)]
mod tables;
#[cfg(test)]
mod texts;
#[cfg(test)]
mod values;
#[cfg(test)]
mod word_tables;
#[cfg(test)]
mod words;
