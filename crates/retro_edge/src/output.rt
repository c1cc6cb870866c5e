//! The program's output.
ghost use Rattle.std.specs.Prelude.{◌≡◌, ◌<◌, ◌↔◌, true, false, length, IsNone, IfSome};
ghost use Rattle.std.specs.Prelude.{OnOk, OnErr};
ghost use Rattle.std.specs.Io.KnownBytes.{Appends, Keeps};
ghost use Rattle.retro_edge.specs.Output.{AppendsPart, TakesPiece};

use std::io::Write;

/// A text couldn't be written whole.
#[derive(Clone, Copy, Debug, PartialEq, Eq)]
pub struct WriteFailed;

/// A writer, and whether it failed. It isn't called again after a failure.
#[derive(Debug, Drop)]
pub struct Output<W> {
    /// The writer.
    pub writer: W,
    /// Whether a call of `write` failed or took no byte.
    pub has_failed: bool,
}

impl<W: Write> Output<W> {
    /// Returns an output to which nothing was written.
    pub fn new(writer: W) -> Output<W>
        ensures { result ≡ record { writer = writer; has_failed = false } }
    {
        Output {
            writer,
            has_failed: false,
        }
    }

    /// Calls `write` once, with at least one byte. Returns how many bytes it took, at least one.
    /// Returns `None` if this call or an earlier one failed or took no byte.
    fn write(&mut self, bytes: &[u8]) -> Option<usize>
        requires { 0 < length bytes.now }
        ensures failed { IsNone result ↔ (self.new.has_failed ≡ true) }
        ensures bytes { IfSome result (λ n.
            TakesPiece (W.contents self.old.writer) (W.contents self.new.writer) n bytes.now) }
        ensures ok { IfSome result (λ _. self.new.has_failed ≡ self.old.has_failed) }
        ensures unchanged { IsNone result →
            Keeps (W.contents self.old.writer) (W.contents self.new.writer) }
    {
        if self.has_failed {
            return None;
        }
        match self.writer.write(bytes) {
            Ok(n) if n > 0 => Some(n),
            _ => {
                self.has_failed = true;
                None
            }
        }
    }

    /// Writes a text. Fails if a call of `write` fails or takes no byte. A part of the text's
    /// start, but not all of it, was then written.
    pub fn write_all(&mut self, text: &[u8]) -> Result<(), WriteFailed>
        ensures whole { OnOk result
            (Appends (W.contents self.old.writer) (W.contents self.new.writer) text.now) }
        ensures part { OnErr result
            (AppendsPart (W.contents self.old.writer) (W.contents self.new.writer) text.now) }
        ensures failed { OnErr result (self.new.has_failed ≡ true) }
        ensures ok { OnOk result (self.new.has_failed ≡ self.old.has_failed) }
    {
        let mut at = 0;
        while at < text.len() {
            match self.write(&text[at..]) {
                Some(n) => at += n,
                None => return Err(WriteFailed),
            }
        }
        Ok(())
    }
}
