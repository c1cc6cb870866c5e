//! Times of files.
ghost use Rattle.std.specs.Prelude.{◌≡◌};
ghost use Rattle.casebook_watch.specs.Sight.{is_after};

/// A time that the file system keeps of a file.
#[derive(Clone, Copy, Debug, PartialEq, Eq)]
pub struct FileTime {
    /// The second, counted from the beginning of 1970. It is negative before.
    pub second: i64,
    /// The nanosecond of that second.
    pub nanosecond: u32,
}

impl FileTime {
    /// Returns whether this is after another time: in a later second, or in the same second with a
    /// greater nanosecond.
    pub fn is_after(self, other: FileTime) -> bool
        ensures { result ≡ is_after self other }
    {
        if self.second == other.second {
            self.nanosecond > other.nanosecond
        } else {
            self.second > other.second
        }
    }
}
