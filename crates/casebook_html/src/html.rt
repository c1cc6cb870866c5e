//! Parts of a page.
ghost use Rattle.std.specs.Prelude.{◌≡◌, ◌++◌, ◌∷◌, [], IfOk, IsTrue, OnErr, OnOk, not};
ghost use Rattle.std.specs.Prelude.{flat_map, string_bytes};
ghost use Rattle.std.specs.List.{list_all};
ghost use Rattle.casebook_text.specs.SafeText.{is_printable};
ghost use Rattle.casebook_html.specs.Page.{IsPage, is_allowed, is_link, is_sign, is_words};
ghost use Rattle.casebook_html.specs.Page.{piece_text, told};
ghost use Rattle.casebook_html.specs.declared.piece.Piece.TheVariants as pieces;

use crate::NoMem;
use crate::excerpt::Excerpt;
use crate::number_tag::NumberTag;
use crate::piece::Piece;
use crate::render::push_piece;
use crate::row_class::RowClass;
use crate::run::Run;
use crate::tag::Tag;
use casebook_text::SafeLine;
use std::alloc::Global;
use std::marker::Model;

/// A part of a page, as pieces, one after another. In contracts it is those of them that are told.
#[derive(Drop)]
pub struct Html {
    pieces: Vec<Piece>,
}

impl Model for Html {
    ghost use Rattle.std.specs.Prelude.{IsTrue, List};
    ghost use Rattle.std.specs.List.{list_all};
    ghost use Rattle.casebook_html.specs.Page.{is_allowed, told};
    ghost use Rattle.casebook_html.specs.declared.piece.Piece.{Piece as Part};

    ghost Value = { List Part };

    ghost view = { λ a. told a.pieces.items };

    ghost invariant = { λ a. IsTrue (list_all is_allowed a.pieces.items) };
}

impl Html {
    /// Returns an empty part. Takes no memory.
    pub fn new(alloc: Global) -> Html
        ensures { result ≡ [] }
    {
        Html {
            pieces: Vec::new(alloc),
        }
    }

    /// Appends a piece.
    fn push(&mut self, piece: Piece) -> Result<(), NoMem>
        requires { IsTrue (is_allowed piece) }
        ensures { OnOk result (self.new ≡ self.old ++ told (piece ∷ [])) }
    {
        self.pieces.push(piece)?;
        Ok(())
    }

    /// Appends a constant of the template that says nothing of the repair.
    pub fn fixed(&mut self, tag: Tag) -> Result<(), NoMem>
        requires { IsTrue (not (is_sign tag)) }
        ensures { OnOk result (self.new ≡ self.old) }
    {
        self.push(Piece::Fixed(tag))
    }

    /// Appends a sign.
    pub fn sign(&mut self, tag: Tag) -> Result<(), NoMem>
        requires { IsTrue (is_sign tag) }
        ensures { OnOk result (self.new ≡ self.old ++ pieces.Fixed tag ∷ []) }
    {
        self.push(Piece::Fixed(tag))
    }

    /// Appends a tag with a number in it.
    pub fn numbered(&mut self, tag: NumberTag, number: u64) -> Result<(), NoMem>
        requires { IsTrue (not (is_link tag)) }
        ensures { OnOk result (self.new ≡ self.old) }
    {
        self.push(Piece::Numbered(tag, number))
    }

    /// Appends a bar: how many percent of its lines have another result, and how many the same.
    pub fn bar(&mut self, changed: u64, alike: u64) -> Result<(), NoMem>
        ensures { OnOk result (self.new ≡ self.old) }
    {
        self.push(Piece::Bar(changed, alike))
    }

    /// Appends the start of the row of a line.
    pub fn row(&mut self, number: u32, class: RowClass) -> Result<(), NoMem>
        ensures { OnOk result (self.new ≡ self.old ++ pieces.Row number class ∷ []) }
    {
        self.push(Piece::Row(number, class))
    }

    /// Appends the number of a line, as a link to its row.
    pub fn link(&mut self, tag: NumberTag, number: u32) -> Result<(), NoMem>
        requires { IsTrue (is_link tag) }
        ensures { OnOk result (self.new ≡ self.old ++ pieces.Link tag number ∷ []) }
    {
        self.push(Piece::Link(tag, number))
    }

    /// Appends the start of a link to the row of a line.
    pub fn anchor(&mut self, number: u32) -> Result<(), NoMem>
        ensures { OnOk result (self.new ≡ self.old ++ pieces.Anchor number ∷ []) }
    {
        self.push(Piece::Anchor(number))
    }

    /// Appends what stands before what a line printed.
    pub fn output(&mut self, run: Run, number: u32) -> Result<(), NoMem>
        ensures { OnOk result (self.new ≡ self.old ++ pieces.Output run number ∷ []) }
    {
        self.push(Piece::Output(run, number))
    }

    /// Appends words that say nothing of the repair by themselves.
    pub fn words(&mut self, words: &'static str) -> Result<(), NoMem>
        requires { IsTrue (is_words words.now) }
        ensures { OnOk result (self.new ≡ self.old) }
    {
        self.push(Piece::Words(words))
    }

    /// Appends a number.
    pub fn number(&mut self, number: u64) -> Result<(), NoMem>
        ensures { OnOk result (self.new ≡ self.old ++ pieces.Number number ∷ []) }
    {
        self.push(Piece::Number(number))
    }

    /// Appends how many there are of something: `1 line`, `2 lines`.
    pub fn count(&mut self, count: usize, noun: &'static str) -> Result<(), NoMem>
        requires { IsTrue (is_words noun.now) }
        ensures { OnOk result (self.new ≡ self.old ++ pieces.Number count ∷ []) }
    {
        self.number(count as u64)?;
        self.words(" ")?;
        self.words(noun)?;
        if count == 1 {
            return Ok(());
        }
        self.words("s")
    }

    /// Appends a text.
    pub fn text(&mut self, text: SafeLine) -> Result<(), NoMem>
        ensures { OnOk result (self.new ≡ self.old ++ pieces.Text text ∷ []) }
    {
        // The proof takes from this call that the text is safe to show.
        let _ = text.as_str();
        self.push(Piece::Text(text))
    }

    /// Appends words that say something of the repair.
    pub fn said(&mut self, alloc: Global, words: &str) -> Result<(), NoMem>
        requires { IsTrue (list_all is_printable words.now) }
        ensures { OnOk result (self.new ≡ self.old ++ pieces.Text words.now ∷ []) }
    {
        let mut line = SafeLine::new(alloc);
        line.push_ascii(words)?;
        self.text(line)
    }

    /// Appends a line that shows a part of a text.
    pub fn aside(&mut self, line: SafeLine) -> Result<(), NoMem>
        ensures { OnOk result (self.new ≡ self.old) }
    {
        // The proof takes from this call that the line is safe to show.
        let _ = line.as_str();
        self.push(Piece::Aside(line))
    }

    /// Appends a part of a text of several lines.
    pub fn excerpt(&mut self, alloc: Global, bytes: &[u8]) -> Result<(), NoMem>
        ensures { OnOk result (self.new ≡ self.old) }
    {
        let text = Excerpt::of(alloc, bytes)?;
        self.push(Piece::Excerpt(text))
    }

    /// Appends another part.
    pub fn part(&mut self, mut other: Html) -> Result<(), NoMem>
        ensures { OnOk result (self.new ≡ self.old ++ other) }
    {
        self.pieces.append(&mut other.pieces)
    }

    /// Returns the page of which this is all that comes after the policy.
    pub fn page(&self, alloc: Global) -> Result<String, NoMem>
        ensures { IfOk result (λ text. IsPage self.now (string_bytes text)) }
    {
        let mut text = String::from_str(alloc, Tag::Begin.as_str())?;
        for piece in &self.pieces {
            push_piece(&mut text, alloc, piece)?;
        }
        Ok(text)
    }
}
