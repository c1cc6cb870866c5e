//! The options of repairs.
use retro_keep::Edit;

/// How a log is to be repaired.
#[derive(Drop)]
pub(crate) struct RepairOptions {
    /// The edits of lines.
    pub(crate) edits: Vec<Edit>,
    /// The number of threads beside the first one.
    pub(crate) workers: usize,
    /// The numbers of lines of the pieces. The last one is that of all further pieces.
    pub(crate) cuts: Vec<u32>,
}
