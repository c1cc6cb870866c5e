//! Reasons.
ghost use Rattle.std.specs.Prelude.{◌≡◌};
ghost use Rattle.std.specs.List.{list_any};
ghost use Rattle.retro_path.specs.Order.{path_eq};
ghost use Rattle.casebook_snapshot.specs.Reasons as reasons;

use retro_path::Path;

/// Why a path is skipped.
#[derive(Clone, Copy, Debug, Drop, PartialEq, Eq)]
pub enum Reason {
    /// It is a symbolic link.
    Link,
    /// It is a device.
    Device,
    /// It is a pipe.
    Pipe,
    /// It is a socket.
    Socket,
    /// It is the root of another file system.
    OtherFileSystem,
    /// It is a file of more than 1,048,576 bytes.
    TooLarge,
    /// Its name isn't UTF-8, or has a NUL, or isn't the name of a file.
    OddName,
    /// Its name has more than 255 bytes.
    NameTooLong,
    /// The system refuses to read it.
    Unreadable,
    /// It changes while it is read.
    Changing,
    /// It is at `/dev/null`, where a tree holds nothing.
    NullDevice,
    /// The caller asks to skip it.
    Asked,
}

/// Returns whether a path is among some paths.
fn is_among(paths: &[Path], path: &Path) -> bool
    ensures { result ≡ list_any (path_eq path.now) paths.now }
{
    paths.iter().any(|other| path == other)
}

/// Returns the reason to skip a path that follows from the path and from the paths to skip.
pub(crate) fn path_reason(skip: &[Path], path: &Path) -> Option<Reason>
    ensures { result ≡ reasons.path_reason skip.now path.now }
{
    if is_among(skip, path) {
        return Some(Reason::Asked);
    }
    if path.is_null() {
        return Some(Reason::NullDevice);
    }
    None
}
