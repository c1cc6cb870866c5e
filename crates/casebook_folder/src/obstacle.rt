//! Obstacles.

/// Why nothing is changed at a path.
#[derive(Clone, Copy, Debug, PartialEq, Eq)]
pub enum Obstacle {
    /// A symbolic link is at the path.
    Link,
    /// A device, a pipe or a socket is at the path.
    Special,
    /// Another file system is mounted at the path.
    Mount,
    /// A link, or a directory of another file system, is above the path.
    Above,
    /// The system refuses to read the path.
    Unreadable,
    /// The file is larger than what is read.
    TooLarge,
    /// The file has several names. The other ones would keep the old bytes.
    SeveralNames,
    /// The file changes while it is read.
    Changing,
    /// The path is named as new nodes are until they are complete.
    TemporaryName,
    /// Something else has the name that the new node has until it is complete.
    NameTaken,
    /// The name is so long that the new node can't have another one until it is complete.
    NameTooLong,
    /// The directory is to be removed, and has a child that the recorded tree doesn't have.
    OtherChild,
}
