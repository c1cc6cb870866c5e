//! Lines of text that are safe to show.
ghost use Rattle.std.specs.Prelude.{◌≡◌, ◌≤◌, ◌+◌, ◌++◌, ◌∷◌, [], List, ℕ, length, IsTrue, IfOk};
ghost use Rattle.std.specs.Prelude.{OnErr, OnOk, chars, decimal, encode_utf8, replicate};
ghost use Rattle.std.specs.Prelude.{string_bytes};
ghost use Rattle.std.specs.List.{list_all};
ghost use Rattle.casebook_text.specs.SafeText.{is_harmless, is_printable};
ghost use Rattle.casebook_text.specs.SafeText.{is_safe_byte};
ghost use Rattle.casebook_text.specs.SafeLine.{IsSafeLine, ellipsis, remark_bytes, safe_bytes};
ghost use Rattle.casebook_text.specs.SafeLine.{word_bytes};
ghost use Rattle.casebook_text.specs.declared.safe_text.Breaks.TheVariants.{Show};

use crate::NoMem;
use crate::safe_text::{Breaks, safe};
use std::alloc::Global;
use std::marker::Model;

/// A text in one line that is safe to show. Each of its characters can be seen and leaves its
/// neighbours as they are, so it has no control character, no newline and no tab. Bytes of a log
/// get into it by [`push_bytes`](SafeLine::push_bytes) alone.
#[derive(Drop)]
pub struct SafeLine {
    text: String,
}

impl Model for SafeLine {
    ghost Value = { List ℕ };

    ghost view = { λ a. string_bytes a.text };

    ghost invariant = { λ a. IsSafeLine (string_bytes a.text) };
}

impl SafeLine {
    /// Returns an empty line. Takes no memory.
    pub fn new(alloc: Global) -> SafeLine
        ensures { result ≡ [] }
    {
        SafeLine {
            text: String::new(alloc),
        }
    }

    /// Returns the text.
    pub fn as_str(&self) -> &str
        ensures value { result.now ≡ self.now }
        ensures safe { IsSafeLine self.now }
        // No byte is a control code of ASCII.
        ensures bytes { IsTrue (list_all (is_safe_byte Show) self.now) }
    {
        self.text.as_str()
    }

    /// Returns the number of characters.
    pub fn width(&self) -> usize
        ensures { result ≡ length (chars self.now) }
    {
        self.text.chars().count()
    }

    /// Appends bytes, as [`safe`] shows them with [`Breaks::Show`].
    pub fn push_bytes(&mut self, alloc: Global, bytes: &[u8]) -> Result<(), NoMem>
        ensures ok { OnOk result (self.new ≡ self.old ++ safe_bytes bytes.now) }
        ensures err { OnErr result (self.new ≡ self.old) }
    {
        let shown = safe(alloc, bytes, Breaks::Show)?;
        self.text.push_str(shown.as_str())
    }

    /// Appends bytes as a word among others: as `safe` shows them with [`Breaks::Words`].
    pub fn push_word(&mut self, alloc: Global, bytes: &[u8]) -> Result<(), NoMem>
        ensures ok { OnOk result (self.new ≡ self.old ++ word_bytes bytes.now) }
        ensures err { OnErr result (self.new ≡ self.old) }
    {
        let shown = safe(alloc, bytes, Breaks::Words)?;
        self.text.push_str(shown.as_str())
    }

    /// Appends a text of printable ASCII.
    pub fn push_ascii(&mut self, text: &str) -> Result<(), NoMem>
        requires { IsTrue (list_all is_printable text.now) }
        ensures ok { OnOk result (self.new ≡ self.old ++ text.now) }
        ensures err { OnErr result (self.new ≡ self.old) }
    {
        self.text.push_str(text)
    }

    /// Appends a number in decimal.
    pub fn push_number(&mut self, alloc: Global, number: u64) -> Result<(), NoMem>
        ensures ok { OnOk result (self.new ≡ self.old ++ decimal number) }
        ensures err { OnErr result (self.new ≡ self.old) }
    {
        let digits = format!(in alloc; "{number}")?;
        self.text.push_str(digits.as_str())
    }

    /// Appends another line.
    pub fn push_line(&mut self, line: &SafeLine) -> Result<(), NoMem>
        ensures ok { OnOk result (self.new ≡ self.old ++ line.now) }
        ensures err { OnErr result (self.new ≡ self.old) }
    {
        self.text.push_str(line.as_str())
    }

    /// Appends a harmless character.
    fn push_harmless(&mut self, c: char) -> Result<(), NoMem>
        requires { IsTrue (is_harmless c) }
        ensures ok { OnOk result (self.new ≡ self.old ++ encode_utf8 c) }
        ensures err { OnErr result (self.new ≡ self.old) }
    {
        self.text.push(c)
    }

    /// Appends an ellipsis, `…`, which says that something is left out.
    pub fn push_ellipsis(&mut self) -> Result<(), NoMem>
        ensures ok { OnOk result (self.new ≡ self.old ++ encode_utf8 ellipsis) }
        ensures err { OnErr result (self.new ≡ self.old) }
    {
        self.push_harmless('…')
    }

    /// Appends a remark of printable ASCII, in the brackets in which codes are shown. No bytes are
    /// shown in this way, unless the remark is a code.
    pub fn push_remark(&mut self, remark: &str) -> Result<(), NoMem>
        requires { IsTrue (list_all is_printable remark.now) }
        ensures { OnOk result (self.new ≡ self.old ++ remark_bytes remark.now) }
    {
        self.push_harmless('⟨')?;
        self.push_ascii(remark)?;
        self.push_harmless('⟩')
    }

    /// Appends spaces.
    pub fn push_spaces(&mut self, count: usize) -> Result<(), NoMem>
        ensures { OnOk result (self.new ≡ self.old ++ replicate count 32) }
    {
        for _ in 0..count {
            self.push_ascii(" ")?;
        }
        Ok(())
    }
}
