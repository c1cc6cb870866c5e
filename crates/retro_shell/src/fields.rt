//! Fields while words are expanded (XCU 2.6.5).
ghost use Rattle.std.specs.Prelude.{◌≡◌, ◌≢◌, ◌+◌, OnOk, length, map, option_map, string_bytes};
ghost use Rattle.std.specs.Str.{IsCharBoundary};
ghost use Rattle.retro_shell.specs.Fields as Making;
ghost use Rattle.retro_shell.specs.Fields.{before_blank, fields_fit, is_blank, split_at_blank};

use retro_tree::NoMem;
use std::alloc::Global;
use std::marker::Model;

/// The maximum size of a command's fields together, in bytes.
const FIELDS_LIMIT: usize = 131_072;

/// The fields that have ended, and the open field, if there is one.
#[derive(Drop)]
pub(crate) struct Fields {
    ended: Vec<String>,
    current: Option<String>,
}

impl Model for Fields {
    ghost use Rattle.std.specs.Prelude.{map, option_map, string_bytes};
    ghost use Rattle.retro_shell.specs.Fields.{Fields};
    ghost use Rattle.retro_shell.specs.inner.FieldsCode.{coded_fields};

    ghost Value = { Fields };

    ghost coded = { coded_fields };

    ghost view = { λ f. record {
      ended = map string_bytes f.ended.items;
      current = option_map string_bytes f.current;
    } };
}

impl Fields {
    /// Returns no fields.
    pub(crate) fn new(alloc: Global) -> Fields
        ensures { result ≡ Making.no_fields }
    {
        Fields {
            ended: Vec::new(alloc),
            current: None,
        }
    }

    /// Opens a field, unless one is open.
    pub(crate) fn begin(&mut self, alloc: Global)
        ensures { self.new ≡ Making.begin self.old }
    {
        if self.current.is_none() {
            self.current = Some(String::new(alloc));
        }
    }

    /// Appends a text to the open field. An empty text opens no field.
    pub(crate) fn add(&mut self, alloc: Global, text: &str) -> Result<(), NoMem>
        ensures { OnOk result (self.new ≡ Making.add text.now self.old) }
    {
        if text.is_empty() {
            return Ok(());
        }
        match &mut self.current {
            Some(field) => field.push_str(text)?,
            None => self.current = Some(String::from_str(alloc, text)?),
        }
        Ok(())
    }

    /// Ends the open field, if there is one.
    pub(crate) fn close(&mut self) -> Result<(), NoMem>
        ensures { OnOk result (self.new ≡ Making.close self.old) }
    {
        match self.current.take() {
            None => {}
            Some(field) => self.ended.push(field)?,
        }
        Ok(())
    }

    /// Appends a text. Each run of blanks in it ends the open field.
    #[tactic(auto, using(crate::proofs::FieldLemmas::splitting))]
    pub(crate) fn add_split(&mut self, alloc: Global, text: &str) -> Result<(), NoMem>
        ensures { OnOk result (self.new ≡ Making.add_split text.now self.old) }
    {
        let mut rest = text;
        loop {
            let (part, more) = split_at_blank(rest);
            self.add(alloc, part)?;
            match more {
                None => return Ok(()),
                Some(more) => {
                    self.close()?;
                    rest = more;
                }
            }
        }
    }

    /// Returns the fields that have ended.
    pub(crate) fn into_ended(self) -> Vec<String>
        ensures { map string_bytes result.items ≡ self.ended }
    {
        let Fields { ended, current: _ } = self;
        ended
    }
}

/// Returns whether a byte is a space, a tab or a newline.
fn is_blank(byte: u8) -> bool
    ensures { result ≡ is_blank byte }
{
    byte == b' ' || byte == b'\t' || byte == b'\n'
}

/// Returns the length of the text before the first blank, in bytes.
#[tactic(auto, using(crate::proofs::FieldLemmas::boundaries))]
fn length_before_blank(text: &str) -> usize
    ensures length { result ≡ length (before_blank text.now) }
    ensures at { IsCharBoundary text.now result }
    ensures after { result ≢ length text.now → IsCharBoundary text.now (result + 1) }
{
    let mut length = 0;
    let mut rest = text.as_bytes();
    while let [first, more @ ..] = rest {
        if is_blank(*first) {
            return length;
        }
        length += 1;
        rest = more;
    }
    length
}

/// Splits a text at its first blank. Returns the text before it, and the text after it if there is
/// a blank.
#[tactic(auto, using(crate::proofs::FieldLemmas::parts))]
fn split_at_blank(text: &str) -> (&str, Option<&str>)
    ensures { (result.0.now, option_map (λ rest. rest.now) result.1) ≡ split_at_blank text.now }
{
    let length = length_before_blank(text);
    if length == text.len() {
        return (text, None);
    }
    (text.split_at(length).0, Some(text.split_at(length + 1).1))
}

/// Returns whether the size of fields is within the limit.
#[tactic(auto, using(crate::proofs::FieldLemmas::sizes))]
pub(crate) fn fields_fit(fields: &[String]) -> bool
    ensures { result ≡ fields_fit (map string_bytes fields.now) }
{
    let mut room = FIELDS_LIMIT;
    for field in fields {
        if field.len() > room {
            return false;
        }
        room -= field.len();
    }
    true
}
