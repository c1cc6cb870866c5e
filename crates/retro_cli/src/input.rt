//! The program's input.
ghost use Rattle.std.specs.Prelude.{◌≡◌, ◌<◌, ◌+◌, true, false, IfOk, IfErr, IfSome, IsNone};
ghost use Rattle.std.specs.Prelude.{IsTrue, Err};
ghost use Rattle.retro_cli.specs.Input.{GivesPiece, is_broken, is_read_stop};
ghost use Rattle.retro_cli.specs.declared.stop.Stop.TheVariants as stops;

use crate::stop::Stop;
use std::alloc::Global;
use std::io::Read;

/// The greatest number of calls of `read` on an input. If they don't reach the end, reading fails.
pub const MOST_READS: u32 = 4_294_967_295;

/// The greatest number of bytes that one call of `read` gives.
const PIECE: usize = 4096;

/// A reader, and what its calls did. It isn't called again after a failure.
#[derive(Debug, Drop)]
pub struct Input<R> {
    /// The reader.
    pub reader: R,
    /// The number of calls of `read` that gave bytes or the end.
    pub reads: u32,
    /// Whether a call of `read` failed.
    pub has_failed: bool,
}

impl<R: Read> Input<R> {
    /// Returns an input that hasn't been read.
    pub fn new(reader: R) -> Input<R>
        ensures { result ≡ record { reader = reader; reads = 0; has_failed = false } }
    {
        Input {
            reader,
            reads: 0,
            has_failed: false,
        }
    }

    /// Returns whether the reader isn't called any more: a call failed, or `MOST_READS` calls
    /// succeeded.
    pub fn is_broken(&self) -> bool
        ensures { result ≡ is_broken self.now.reads self.now.has_failed }
    {
        self.has_failed || self.reads == MOST_READS
    }

    /// Calls `read` once. Returns how many bytes it put at the start of `piece`, 0 at the end of
    /// the input. Returns `None` if the input is broken.
    fn read(&mut self, piece: &mut [u8]) -> Option<usize>
        ensures broken { IsNone result → is_broken self.new.reads self.new.has_failed ≡ true }
        ensures failed { self.new.has_failed ≡ true → IsNone result }
        ensures bytes { IfSome result (λ n.
            GivesPiece (R.remaining self.old.reader) (R.remaining self.new.reader) n piece.new) }
        ensures left { IfSome result (λ _. self.old.reads < MOST_READS) }
        ensures unchanged { IsNone result → self.new.reads ≡ self.old.reads }
        ensures count { IfSome result (λ _. self.new.reads ≡ self.old.reads + 1) }
    {
        if self.is_broken() {
            return None;
        }
        match self.reader.read(piece) {
            Ok(n) => {
                self.reads += 1;
                Some(n)
            }
            Err(_) => {
                self.has_failed = true;
                None
            }
        }
    }

    /// Reads and returns all bytes up to the end of the input. Fails with `ReadFailed` if the
    /// input is broken before its end.
    pub(crate) fn read_to_end(&mut self, alloc: Global) -> Result<Vec<u8>, Stop>
        ensures bytes { IfOk result (λ read. IfSome (R.remaining self.old.reader)
            (λ bytes. read.items ≡ bytes)) }
        ensures stop { IfErr result (λ stop. IsTrue (is_read_stop stop)) }
        ensures broken { result ≡ Err stops.ReadFailed →
            is_broken self.new.reads self.new.has_failed ≡ true }
        ensures failed { self.new.has_failed ≡ true →
            result ≡ Err stops.ReadFailed }
    {
        let mut bytes = Vec::new(alloc);
        let mut piece = [0u8; PIECE];
        while let Some(n) = self.read(&mut piece) {
            if n == 0 {
                return Ok(bytes);
            }
            bytes.extend_from_slice(&piece[..n])?;
        }
        Err(Stop::ReadFailed)
    }
}
