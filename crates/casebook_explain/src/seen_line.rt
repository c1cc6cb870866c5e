//! Lines that were seen.
use casebook_stand_in::Effect;
use retro_tree::{Bytes, Path, Text};

/// A line that was seen on a machine: what was typed, and what the line read, listed and left.
#[derive(Drop)]
pub struct SeenLine {
    /// The text as it was typed. It needn't be UTF-8.
    pub text: Bytes,
    /// The same text, if by its form it can mean to Retro's shell what it means to the machine's.
    pub typed: Option<Text>,
    /// The files that it read.
    pub read: Vec<Path>,
    /// The directories that it listed.
    pub listed: Vec<Path>,
    /// What it left in the watched folders and in its session.
    pub effect: Effect,
}
