//! Spools: where the recorder keeps what it saw.
ghost use Rattle.std.specs.Prelude.{◌≡◌, ◌<◌, ◌^◌, IfOk, IfSome, OnErr, OnOk, Option, length};
ghost use Rattle.std.specs.Prelude.{option_map};
ghost use Rattle.casebook_observe.specs.Files.{IsCutOff, SpoolFiles, appended, lines_from};
ghost use Rattle.casebook_observe.specs.Files.{with_first, with_kept, with_listing};

use crate::spool_error::SpoolError;
use casebook_spool::Digest;
use std::alloc::Global;

/// A spool: a file `first` with the first look, a file `lines` with all observations since, a file
/// `listing` that can be made of both, and the contents of files.
pub trait Spool {
    // What it holds, or `None` where nothing is said of that.
    ghost holds: { Self → Option SpoolFiles };

    /// Returns the file `first`.
    fn first(&self, alloc: Global) -> Result<Vec<u8>, SpoolError>
        ensures { IfSome (holds self.now) (λ files. IfOk result (λ text.
            text.items ≡ files.first)) };

    /// Returns the file `listing`, or nothing if there is none.
    fn listing(&self, alloc: Global) -> Result<Vec<u8>, SpoolError>
        ensures { IfSome (holds self.now) (λ files. IfOk result (λ text.
            text.items ≡ files.listing)) };

    /// Returns what the file `lines` has from a byte on, or `None` if it has fewer bytes. No file has
    /// more bytes than a number of 64 bits says.
    fn lines(&self, alloc: Global, from: u64) -> Result<Option<Vec<u8>>, SpoolError>
        ensures fits { IfSome (holds self.now) (λ files. OnOk result (length files.lines < 2 ^ 64)) }
        ensures value { IfSome (holds self.now) (λ files. IfOk result (λ text.
            option_map (λ text. text.items) text ≡ lines_from from files)) };

    /// Writes the file `first` of a new spool, and returns when it is on the disk.
    fn set_first(&mut self, text: &[u8]) -> Result<(), SpoolError>
        ensures ok { OnOk result
            (holds self.new ≡ option_map (λ files. with_first text.now files) (holds self.old)) }
        ensures err { OnErr result (holds self.new ≡ holds self.old) };

    /// Keeps the bytes of a file under their digest, if they aren't kept yet, and returns when they
    /// are on the disk.
    fn keep(&mut self, digest: &Digest, bytes: &[u8]) -> Result<(), SpoolError>
        ensures ok { OnOk result (holds self.new
            ≡ option_map (λ files. with_kept digest.now bytes.now files) (holds self.old)) }
        ensures err { OnErr result (holds self.new ≡ holds self.old) };

    /// Writes a text in place of what the file `lines` has from a byte on, and returns when it is
    /// on the disk. If that fails, a part of the text may be there.
    fn append(&mut self, at: u64, text: &[u8]) -> Result<(), SpoolError>
        ensures ok { OnOk result
            (holds self.new ≡ option_map (λ files. appended at text.now files) (holds self.old)) }
        ensures err { OnErr result (IsCutOff at text.now (holds self.old) (holds self.new)) };

    /// Writes the file `listing`, in place of the one that there is, and returns when it is on the
    /// disk. If that fails, the old one is still there.
    fn set_listing(&mut self, text: &[u8]) -> Result<(), SpoolError>
        ensures ok { OnOk result
            (holds self.new ≡ option_map (λ files. with_listing text.now files) (holds self.old)) }
        ensures err { OnErr result (holds self.new ≡ holds self.old) };
}
