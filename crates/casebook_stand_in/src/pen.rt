//! Writes the texts of stand-ins.
ghost use Rattle.std.specs.Prelude.{◌≡◌, [], IfOk, IsTrue, OnOk, string_bytes};
ghost use Rattle.std.specs.List.{list_all};
ghost use Rattle.casebook_stand_in.specs.Lengths.{is_short};
ghost use Rattle.casebook_stand_in.specs.inner.Pens.{IsShort};

use crate::NoMem;
use retro_syntax::LONGEST_LINE;
use retro_tree::Text;
use std::alloc::Global;
use std::mem::replace;

/// What is put between two commands of a line.
const SEPARATOR: &str = "; ";

/// Texts of lines in the making. No text is too long for a line.
#[derive(Drop)]
pub(crate) struct Pen {
    texts: Vec<Text>,
    line: String,
}

impl Pen {
    /// Returns a pen that has written nothing. Takes no memory.
    pub(crate) fn new(alloc: Global) -> Pen
        ensures { IsShort result }
    {
        Pen {
            texts: Vec::new(alloc),
            line: String::new(alloc),
        }
    }

    /// Ends the line. The next command begins another one.
    fn end_line(&mut self, alloc: Global) -> Result<(), NoMem>
        requires { IsShort self.old }
        ensures short { OnOk result (IsShort self.new) }
        ensures line { OnOk result (string_bytes self.new.line ≡ []) }
    {
        let line = replace(&mut self.line, String::new(alloc));
        self.texts.push(Text::of(line))?;
        Ok(())
    }

    /// Writes a command: after those of the line, or on a line of its own if it doesn't fit there.
    /// Returns false if it is too long for any line.
    pub(crate) fn command(&mut self, alloc: Global, command: &str) -> Result<bool, NoMem>
        requires { IsShort self.old }
        ensures { OnOk result (IsShort self.new) }
    {
        if command.len() > LONGEST_LINE {
            return Ok(false);
        }
        if self.line.is_empty() {
            self.line.push_str(command)?;
        } else if self.line.len() + SEPARATOR.len() + command.len() <= LONGEST_LINE {
            self.line.push_str(SEPARATOR)?;
            self.line.push_str(command)?;
        } else {
            self.end_line(alloc)?;
            self.line.push_str(command)?;
        }
        Ok(true)
    }

    /// Returns whether nothing was written.
    pub(crate) fn is_empty(&self) -> bool {
        self.texts.is_empty() && self.line.is_empty()
    }

    /// Returns the texts, in order.
    pub(crate) fn finish(self, alloc: Global) -> Result<Vec<Text>, NoMem>
        requires { IsShort self }
        ensures { IfOk result (λ texts. IsTrue (list_all is_short texts.items)) }
    {
        let mut pen = self;
        if !pen.line.is_empty() {
            pen.end_line(alloc)?;
        }
        let Pen { texts, line: _ } = pen;
        Ok(texts)
    }
}
