//! The limits of the numbers in an undo file.

/// The greatest mode: the permission bits, with set-user-ID, set-group-ID and sticky.
pub const MODE_LIMIT: u32 = 0o7777;

/// The greatest number of an owner or a group.
pub(crate) const NUMBER_LIMIT: u32 = 0xffff_ffff;
