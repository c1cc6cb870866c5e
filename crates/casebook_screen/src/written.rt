//! Lines that are written piece by piece.
ghost use Rattle.std.specs.Prelude.{◌≡◌, ◌++◌, [], IfOk, IsTrue, OnOk};
ghost use Rattle.casebook_screen.specs.Screen.{is_allowed, piece_text};
ghost use Rattle.casebook_screen.specs.declared.piece.Piece.TheVariants as pieces;
ghost use Rattle.casebook_screen.specs.inner.Written.{AreWritten, written_text};

use crate::NoMem;
use crate::piece::Piece;
use casebook_text::SafeLine;
use std::alloc::Global;
use std::mem::replace;

/// The lines so far, and the one that isn't ended yet.
#[derive(Drop)]
pub(crate) struct Written {
    lines: Vec<SafeLine>,
    line: SafeLine,
}

impl Written {
    /// Returns no lines. Takes no memory.
    pub(crate) fn new(alloc: Global) -> Written
        ensures { written_text result ≡ [] }
    {
        Written {
            lines: Vec::new(alloc),
            line: SafeLine::new(alloc),
        }
    }

    /// Ends the line.
    fn end(&mut self, alloc: Global) -> Result<(), NoMem>
        ensures { OnOk result (written_text self.new ≡ written_text self.old ++ piece_text pieces.End) }
    {
        let line = replace(&mut self.line, SafeLine::new(alloc));
        self.lines.push(line)?;
        Ok(())
    }

    /// Appends a piece.
    #[tactic(auto, unfolding(crate::specs::Screen::piece_text))]
    pub(crate) fn push(&mut self, alloc: Global, piece: &Piece) -> Result<(), NoMem>
        requires { IsTrue (is_allowed piece.now) }
        ensures { OnOk result (written_text self.new
            ≡ written_text self.old ++ piece_text piece.now) }
    {
        match piece {
            Piece::End => self.end(alloc),
            Piece::Spaces(count) => self.line.push_spaces(*count),
            Piece::Words(words) => self.line.push_ascii(words),
            Piece::Number(number) => self.line.push_number(alloc, *number),
            Piece::Text(text) => self.line.push_line(text),
        }
    }

    /// Returns the lines, of which the last one ends.
    pub(crate) fn into_lines(self) -> Result<Vec<SafeLine>, NoMem>
        ensures { IfOk result (λ lines. AreWritten self lines.items) }
    {
        let Written { mut lines, line } = self;
        if !line.as_str().is_empty() {
            lines.push(line)?;
        }
        Ok(lines)
    }
}
