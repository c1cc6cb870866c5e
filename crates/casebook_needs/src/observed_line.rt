//! What a recorder notes of a line.
use crate::effect::Effect;
use retro_path::Path;

/// What a recorder notes of a line that it observed.
#[derive(Clone, Copy)]
pub struct ObservedLine<'a> {
    /// The text, as it was typed. It needn't be UTF-8.
    pub text: &'a [u8],
    /// The number of the session.
    pub session: u32,
    /// The directory of the session.
    pub directory: &'a Path,
    /// The files that the line read.
    pub read: &'a [Path],
    /// The directories that it listed.
    pub listed: &'a [Path],
    /// What it changed.
    pub effects: &'a [Effect],
    /// The file that holds the session's functions, aliases and options, if there is one.
    pub shell: Option<&'a Path>,
}
