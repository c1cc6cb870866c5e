//! Documents that the program reads.
ghost use Rattle.std.specs.Prelude.{◌≡◌, Option, IfSome};
ghost use Rattle.casebook_repairs.specs.Documents.{AllDocuments, IsReadAs};
ghost use Rattle.casebook_repairs.specs.declared.documents.ReadFault.TheVariants as faults;

use crate::NoMem;
use std::alloc::Global;

/// What hinders a document from being read.
#[derive(Clone, Copy, Debug, Drop, PartialEq, Eq)]
pub enum Hindrance {
    /// There is no such document.
    Missing,
    /// It is a directory.
    Directory,
    /// It isn't permitted.
    NotPermitted,
    /// Something else.
    Other,
}

/// Why a document couldn't be read.
#[derive(Clone, Copy, Debug, PartialEq, Eq)]
pub enum ReadFault {
    /// Allocation failed.
    NoMem,
    /// There is no such document, or it couldn't be read to its end.
    Unreadable(Hindrance),
}

impl From<NoMem> for ReadFault {
    ghost from_gives = { λ _ fault. fault ≡ faults.NoMem };

    fn from(_error: NoMem) -> ReadFault {
        ReadFault::NoMem
    }
}

/// Documents with names.
pub trait Documents {
    // The bytes of the document with a name, or nothing if it can't be read; or `None` where
    // nothing is said of what the documents are.
    ghost bytes_of: { Self → Option AllDocuments };

    /// Reads the document with a name.
    fn read(&self, alloc: Global, name: &str) -> Result<Vec<u8>, ReadFault>
        ensures { IfSome (bytes_of self.now) (λ at.
            IsReadAs (λ bytes. bytes.items) (at name.now) result) };
}
