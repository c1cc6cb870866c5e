//! Rows of a recording: what a person is shown of each line.
use crate::path_write::PathWrite;
use casebook_profile::Obstacle;
use retro_tree::{Bytes, Path, Text};

/// A line of a recording, with the paths that its notes name. Borrows the recording.
#[derive(Drop)]
pub struct LineRow<'a> {
    /// The line's number.
    pub number: u32,
    /// The session that ran the line.
    pub session: u32,
    /// The line.
    pub text: &'a Text,
    /// The paths about which the line asked, each once, in the order in which they first occur. Of
    /// an observed line those that it read, or may have looked at since its text names them, if
    /// something was there.
    pub read: Vec<Path>,
    /// What the line wrote, each kind of write to a path once, in the order in which they first
    /// occur.
    pub wrote: Vec<PathWrite>,
    /// Why the line isn't understood, or that it stands as it was observed; else `None`.
    pub obstacle: Option<Obstacle>,
    /// What the line printed.
    pub output: &'a Bytes,
}
