//! What a command depends on beside the state.

use retro_utils::Place;

/// What the words and the utility of a command depend on beside the state.
#[derive(Clone, Copy, Debug, PartialEq, Eq)]
pub(crate) struct Context {
    /// The session, and whether the command runs in a subshell.
    pub place: Place,
    /// The status of the line's last completed pipeline, or `None` before the first.
    pub last: Option<u8>,
}
