//! Snapshots.
use crate::child::Child;
use crate::item::Row;
use crate::reason::Reason;
use retro_path::Path;
use std::collections::BTreeMap;

/// A path that is skipped. Nothing below it is looked at.
#[derive(Drop)]
pub struct SkippedPath {
    /// The directory and the name.
    pub child: Child,
    /// The reason.
    pub reason: Reason,
}

/// What is kept of a folder, and what is skipped.
#[derive(Drop)]
pub struct Snapshot {
    /// The directories and files, by their paths. The root is one of them.
    pub rows: BTreeMap<Path, Row>,
    /// What is skipped.
    pub skipped: Vec<SkippedPath>,
}
