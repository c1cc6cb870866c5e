//! What is known of lines beside their recording.
use casebook_about::{Labels, LineTime};

/// What is known of lines beside their recording.
#[derive(Drop)]
pub struct Knowledge {
    /// What sessions are called, and when lines were typed, as text.
    pub labels: Labels,
    /// When lines were typed. The last time of a line counts.
    pub times: Vec<LineTime>,
}
