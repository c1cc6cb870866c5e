//! Explanations of lines.
use retro_shell::Run;

/// The lines of the profile by which a recording has a line.
#[derive(Drop)]
pub struct Explained {
    /// Whether the line is modelled: its only text is the one that was typed.
    pub is_modelled: bool,
    /// The runs of its texts, one after the other, with their notes and outputs.
    pub runs: Vec<Run>,
}
