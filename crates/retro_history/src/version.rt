//! Versions of cells.
ghost use Rattle.std.specs.Prelude.{◌≡◌, ℕ, List, length};
ghost use Rattle.retro_history.specs.inner.Tracks.{next_version};
ghost use Rattle.retro_history.specs.inner.Version.{IsWithin, version_value};
ghost use Rattle.retro_history.specs.inner.History.{version_parts, version_ref_parts};

use crate::place::ValuePlace;
use crate::version_ref::VersionRef;
use retro_tree::ValueRef;

/// The longest run of growths between two checkpoints. The growth after it makes a checkpoint.
const GROWTH_LIMIT: u8 = 16;

/// A version of a cell: what the cell holds after a line that changes it.
#[derive(Clone, Copy)]
pub(crate) struct Version<'a> {
    /// The number of the line, or 0 for the first version.
    pub(crate) number: u32,
    /// The number of the last checkpoint up to this version.
    pub(crate) checkpoint: u32,
    /// How many growths lead from that checkpoint to this version. A checkpoint has 0.
    pub(crate) growths: u8,
    /// Where the value is stored.
    pub(crate) place: ValuePlace<'a>,
}

impl<'a> Version<'a> {
    /// Returns the version of a line that grows this one. Its value is this one's until bytes are
    /// appended to it. It is a checkpoint if this version is already the last growth that
    /// `GROWTH_LIMIT` allows.
    pub(crate) fn next(self, number: u32) -> Version<'a>
        ensures value { (buffer : List ℕ) → version_value buffer result
            ≡ next_version number (version_value buffer self.entry) }
        ensures place { result.place ≡ self.entry.place }
    {
        let is_growth = self.growths < GROWTH_LIMIT;
        Version {
            number,
            checkpoint: if is_growth { self.checkpoint } else { number },
            growths: if is_growth { self.growths + 1 } else { 0 },
            place: self.place,
        }
    }

    /// Borrows the value from the recording or from the track's buffer.
    pub(crate) fn to_ref(self, buffer: &'a [u8]) -> VersionRef<'a>
        requires { IsWithin (length buffer.now) self.place }
        ensures { version_ref_parts result ≡ version_parts (version_value buffer.now self.entry) }
    {
        let value = match self.place {
            ValuePlace::Borrowed(value) => value,
            ValuePlace::Buffer(span) => ValueRef::File(&buffer[span.start..span.end]),
        };
        VersionRef {
            checkpoint: self.checkpoint,
            value,
        }
    }
}
