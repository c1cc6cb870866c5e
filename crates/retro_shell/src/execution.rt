//! A line in execution.

use crate::progress::Progress;
use retro_tree::View;
use retro_utils::Local;

/// A line in execution: its progress, and the view with the notes made so far.
#[derive(Drop)]
pub(crate) struct Execution<'a, V: View> {
    pub progress: Progress,
    pub local: Local<'a, V>,
}
