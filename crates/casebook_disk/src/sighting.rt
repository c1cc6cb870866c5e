//! Sights of what the system says.
use crate::reading::attributes_of;
use crate::scope::Scope;
use casebook_folder::Attributes;
use casebook_watch::{FileTime, Kind, Sight};
use std::fs::Metadata;
use std::os::unix::fs::MetadataExt;

/// The beginning of 1970, for what has no time.
pub(crate) const NO_TIME: FileTime = FileTime {
    second: 0,
    nanosecond: 0,
};

/// The sight of a name at which the system refuses to look.
pub(crate) const REFUSED: Sight = Sight {
    kind: Kind::Other,
    size: 0,
    number: 0,
    attributes: Attributes {
        mode: 0,
        uid: 0,
        gid: 0,
    },
    read: NO_TIME,
    written: NO_TIME,
    changed: NO_TIME,
};

/// Returns the time of a second and a nanosecond of it.
fn time_of(second: i64, nanosecond: i64) -> FileTime {
    FileTime {
        second,
        nanosecond: u32::try_from(nanosecond).unwrap_or(0),
    }
}

/// Returns the kind of a node. What is on other file systems is of no kind that is looked into.
fn kind_of(there: &Metadata, scope: Scope) -> Kind {
    if !scope.has(there) {
        Kind::Other
    } else if there.is_dir() {
        Kind::Dir
    } else if there.is_file() {
        Kind::File
    } else if there.is_symlink() {
        Kind::Link
    } else {
        Kind::Other
    }
}

/// Returns the sight of what is at a path, on these file systems.
pub(crate) fn sight_of(there: &Metadata, scope: Scope) -> Sight {
    Sight {
        kind: kind_of(there, scope),
        size: there.len(),
        number: there.ino(),
        attributes: attributes_of(there),
        read: time_of(there.atime(), there.atime_nsec()),
        written: time_of(there.mtime(), there.mtime_nsec()),
        changed: time_of(there.ctime(), there.ctime_nsec()),
    }
}

/// Returns whether both are of the same node, and nothing but reading can have happened in between.
pub(crate) fn is_same_state(a: &Sight, b: &Sight) -> bool {
    a.kind == b.kind
        && a.number == b.number
        && a.size == b.size
        && a.written == b.written
        && a.changed == b.changed
}
