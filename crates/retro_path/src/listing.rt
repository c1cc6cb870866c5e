//! The names in a directory.
ghost use Rattle.std.specs.Prelude.{◌≡◌, IfOk};

use crate::NoMem;
use crate::name::Name;
use std::marker::Model;

/// The names of the children of a directory. A state lists them in byte order.
#[derive(Drop, Clone)]
pub struct Listing {
    names: Vec<Name>,
}

impl Model for Listing {
    ghost use Rattle.std.specs.Prelude.{List, ℕ};

    ghost Value = { List (List ℕ) };

    ghost view = { λ a. a.names.items };
}

impl Listing {
    /// Makes a listing of names.
    pub fn of(names: Vec<Name>) -> Listing
        ensures { result ≡ names.items }
    {
        Listing { names }
    }

    /// Returns the names, in order.
    pub fn names(&self) -> &[Name]
        ensures { result.now ≡ self.now }
    {
        self.names.as_slice()
    }

    /// Returns the vector of the names. Takes no memory.
    pub fn into_vec(self) -> Vec<Name>
        ensures { result.items ≡ self }
    {
        let Listing { names } = self;
        names
    }

    /// Returns a copy.
    pub fn copy(&self) -> Result<Listing, NoMem>
        ensures { IfOk result (λ copy. copy ≡ self.now) }
    {
        self.clone()
    }
}

impl PartialEq for Listing {
    ghost use Rattle.retro_path.specs.Order.{path_eq, path_per};

    ghost eq = { path_eq };

    ghost laws = { path_per };

    fn eq(&self, other: &Listing) -> bool {
        self.names.as_slice() == other.names.as_slice()
    }
}

impl Eq for Listing {
    ghost use Rattle.retro_path.specs.Order.{path_equiv};

    ghost laws = { path_equiv };
}
