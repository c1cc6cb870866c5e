//! The streams of a command.

use crate::target::Target;
use retro_utils::Input;

/// Where a command reads and writes.
#[derive(Drop)]
pub(crate) struct Streams {
    pub input: Input,
    pub output: Target,
}
