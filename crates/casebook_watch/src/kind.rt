//! Kinds of what is at a path.

/// The kind of what is at a path, if no link is followed.
#[derive(Clone, Copy, Debug, PartialEq, Eq)]
pub enum Kind {
    /// A directory.
    Dir,
    /// A regular file.
    File,
    /// A symbolic link.
    Link,
    /// Anything else, such as a device or a socket.
    Other,
}
