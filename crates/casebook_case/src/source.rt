//! Spools that are only read.
ghost use Rattle.std.specs.Prelude.{◌≡◌, IfOk, IfSome, Option, option_map};
ghost use Rattle.casebook_observe.specs.Files.{SpoolFiles};

use casebook_observe::SpoolError;
use casebook_spool::Digest;
use retro_path::Bytes;
use std::alloc::Global;

/// A spool that is only read: its files `first` and `lines` as they were at one moment, and the
/// bytes that it keeps.
pub trait SpoolSource {
    // What it holds, or `None` where nothing is said of that.
    ghost holds: { Self → Option SpoolFiles };

    /// Returns the file `first`.
    fn first(&self, alloc: Global) -> Result<Vec<u8>, SpoolError>
        ensures { IfSome (holds self.now) (λ files. IfOk result (λ text.
            text.items ≡ files.first)) };

    /// Returns the file `lines`.
    fn lines(&self, alloc: Global) -> Result<Vec<u8>, SpoolError>
        ensures { IfSome (holds self.now) (λ files. IfOk result (λ text.
            text.items ≡ files.lines)) };

    /// Returns the bytes that are kept under a digest, or `None` if there are none.
    fn content(&self, alloc: Global, digest: &Digest) -> Result<Option<Bytes>, SpoolError>
        ensures { IfSome (holds self.now) (λ files. IfOk result (λ bytes.
            bytes ≡ files.kept digest.now.bytes)) };
}
