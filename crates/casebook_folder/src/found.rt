//! What a folder holds at a path.
ghost use Rattle.std.specs.Prelude.{◌≡◌, IfOk};
ghost use Rattle.casebook_folder.specs.Found.{found_eq, is_missing};

use crate::NoMem;
use crate::attributes::Attributes;
use crate::obstacle::Obstacle;
use retro_path::Bytes;

/// What a folder holds at a path, if no link is followed.
#[derive(Clone, Drop)]
pub enum Found {
    /// Nothing.
    Missing,
    /// A directory.
    Dir(Attributes),
    /// A file with its bytes.
    File(Bytes, Attributes),
    /// Something that stands in the way, here or above.
    Blocked(Obstacle),
}

impl Found {
    /// Returns a copy.
    pub fn copy(&self) -> Result<Found, NoMem>
        ensures { IfOk result (λ copy. copy ≡ self.now) }
    {
        self.clone()
    }

    /// Returns whether this is the same as another: the same kind, bytes, mode and owner. What is
    /// blocked is the same as nothing, not even as itself.
    pub fn is_same(&self, other: &Found) -> bool
        ensures { result ≡ found_eq self.now other.now }
    {
        match (self, other) {
            (Found::Missing, Found::Missing) => true,
            (Found::Dir(a), Found::Dir(b)) => a == b,
            (Found::File(x, a), Found::File(y, b)) => x == y && a == b,
            _ => false,
        }
    }

    /// Returns whether this is nothing.
    pub fn is_missing(&self) -> bool
        ensures { result ≡ is_missing self.now }
    {
        match self {
            Found::Missing => true,
            _ => false,
        }
    }
}
