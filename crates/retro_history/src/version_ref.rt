//! Borrowed versions.
use retro_tree::ValueRef;

/// The value of a version, and the checkpoint to which it can be rolled back.
#[derive(Clone, Copy)]
pub(crate) struct VersionRef<'a> {
    /// The number of the last checkpoint up to the version.
    pub(crate) checkpoint: u32,
    /// The value.
    pub(crate) value: ValueRef<'a>,
}
