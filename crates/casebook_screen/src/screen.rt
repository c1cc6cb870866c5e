//! What a terminal shows, piece by piece.
ghost use Rattle.std.specs.Prelude.{◌≡◌, ◌++◌, ◌∷◌, [], IfOk, IsTrue, OnOk};
ghost use Rattle.std.specs.List.{list_all};
ghost use Rattle.casebook_text.specs.SafeText.{is_printable};
ghost use Rattle.casebook_screen.specs.Screen.{IsScreen, is_allowed, is_words, told};
ghost use Rattle.casebook_screen.specs.declared.piece.Piece.TheVariants as pieces;

use crate::NoMem;
use crate::lines::number_line;
use crate::piece::Piece;
use crate::written::Written;
use casebook_text::SafeLine;
use std::alloc::Global;
use std::marker::Model;

/// Lines of a terminal, as pieces, one after another. In contracts it is those of them that are
/// told.
#[derive(Drop)]
pub(crate) struct Screen {
    pieces: Vec<Piece>,
}

impl Model for Screen {
    ghost use Rattle.std.specs.Prelude.{IsTrue, List};
    ghost use Rattle.std.specs.List.{list_all};
    ghost use Rattle.casebook_screen.specs.Screen.{is_allowed, told};
    ghost use Rattle.casebook_screen.specs.declared.piece.Piece.{Piece as Part};

    ghost Value = { List Part };

    ghost view = { λ a. told a.pieces.items };

    ghost invariant = { λ a. IsTrue (list_all is_allowed a.pieces.items) };
}

impl Screen {
    /// Returns an empty screen. Takes no memory.
    pub(crate) fn new(alloc: Global) -> Screen
        ensures { result ≡ [] }
    {
        Screen {
            pieces: Vec::new(alloc),
        }
    }

    /// Appends a piece.
    fn push(&mut self, piece: Piece) -> Result<(), NoMem>
        requires { IsTrue (is_allowed piece) }
        ensures { OnOk result (self.new ≡ self.old ++ told (piece ∷ [])) }
    {
        self.pieces.push(piece)?;
        Ok(())
    }

    /// Ends a line.
    pub(crate) fn end(&mut self) -> Result<(), NoMem>
        ensures { OnOk result (self.new ≡ self.old) }
    {
        self.push(Piece::End)
    }

    /// Appends spaces.
    pub(crate) fn spaces(&mut self, count: usize) -> Result<(), NoMem>
        ensures { OnOk result (self.new ≡ self.old) }
    {
        self.push(Piece::Spaces(count))
    }

    /// Appends words that say nothing of the repair by themselves.
    pub(crate) fn words(&mut self, words: &'static str) -> Result<(), NoMem>
        requires { IsTrue (is_words words.now) }
        ensures { OnOk result (self.new ≡ self.old) }
    {
        self.push(Piece::Words(words))
    }

    /// Appends a number.
    pub(crate) fn number(&mut self, number: u64) -> Result<(), NoMem>
        ensures { OnOk result (self.new ≡ self.old ++ pieces.Number number ∷ []) }
    {
        self.push(Piece::Number(number))
    }

    /// Appends a text.
    pub(crate) fn text(&mut self, text: SafeLine) -> Result<(), NoMem>
        ensures { OnOk result (self.new ≡ self.old ++ pieces.Text text ∷ []) }
    {
        self.push(Piece::Text(text))
    }

    /// Appends words that say something of the repair.
    pub(crate) fn said(&mut self, alloc: Global, words: &str) -> Result<(), NoMem>
        requires { IsTrue (list_all is_printable words.now) }
        ensures { OnOk result (self.new ≡ self.old ++ pieces.Text words.now ∷ []) }
    {
        let mut line = SafeLine::new(alloc);
        line.push_ascii(words)?;
        self.text(line)
    }

    /// Appends how many there are of something: `1 line`, `2 lines`.
    pub(crate) fn count(&mut self, count: usize, noun: &'static str) -> Result<(), NoMem>
        requires { IsTrue (is_words noun.now) }
        ensures { OnOk result (self.new ≡ self.old ++ pieces.Number count ∷ []) }
    {
        self.number(count as u64)?;
        self.words(" ")?;
        self.words(noun)?;
        if count == 1 {
            return Ok(());
        }
        self.words("s")
    }

    /// Appends a text, and spaces up to a width.
    pub(crate) fn padded(&mut self, text: SafeLine, width: usize) -> Result<(), NoMem>
        ensures { OnOk result (self.new ≡ self.old ++ pieces.Text text ∷ []) }
    {
        let rest = width.saturating_sub(text.width());
        self.text(text)?;
        self.spaces(rest)
    }

    /// Appends a text after spaces, right-aligned in a column of this width.
    pub(crate) fn right(&mut self, text: SafeLine, width: usize) -> Result<(), NoMem>
        ensures { OnOk result (self.new ≡ self.old ++ pieces.Text text ∷ []) }
    {
        self.spaces(width.saturating_sub(text.width()))?;
        self.text(text)
    }

    /// Appends a number, right-aligned in a column of this width.
    pub(crate) fn column(&mut self, alloc: Global, number: u64, width: usize) -> Result<(), NoMem>
        ensures { OnOk result (self.new ≡ self.old ++ pieces.Number number ∷ []) }
    {
        let digits = number_line(alloc, number)?;
        self.spaces(width.saturating_sub(digits.width()))?;
        self.number(number)
    }

    /// Returns the lines.
    pub(crate) fn lines(&self, alloc: Global) -> Result<Vec<SafeLine>, NoMem>
        ensures { IfOk result (λ lines. IsScreen self.now lines.items) }
    {
        let mut written = Written::new(alloc);
        for piece in &self.pieces {
            written.push(alloc, piece)?;
        }
        written.into_lines()
    }
}
