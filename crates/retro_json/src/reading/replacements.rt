//! Reads lines whose text is replaced, as an option of a command line lists them: a JSON list of
//! `[number,"text"]` (RFC 8259).
ghost use Rattle.std.specs.Prelude.{◌≡◌, map};
ghost use Rattle.retro_value.specs.Borrowed.{value_data};
ghost use Rattle.retro_json.specs.ReadsAs.{ReadsAs};
ghost use Rattle.retro_json.specs.Replacements.{replacement_of, replacement_with, replacements_of};
ghost use Rattle.retro_json.specs.Replacements.{replacements_read};
ghost use Rattle.retro_json.specs.Steps.{each};

use crate::fault::{LogFault, Part, Refusal};
use crate::reading::shape::{cells, text, u32_in};
use json::{Scratch, Value};
use retro_keep::Edit;
use retro_tree::Text;
use retro_value::read_whole;
use std::alloc::Global;

/// Reads a replacement from its number and its text.
fn replacement_with(alloc: Global, number: &Value<'_>, line: &Value<'_>) -> Result<Edit, LogFault>
    ensures { ReadsAs (λ edit. edit) result (replacement_with (value_data number.now) (value_data line.now)) }
{
    let number = u32_in(Part::Document, number)?;
    let line = text(Part::Document, line)?;
    let line = String::from_str(alloc, line)?;
    Ok(Edit::Replace(number, Text::of(line)))
}

/// Reads a replacement: `[number,"text"]`.
#[tactic(auto, unfolding(crate::specs::Replacements::replacement_of))]
fn replacement_of(alloc: Global, value: &Value<'_>) -> Result<Edit, LogFault>
    ensures { ReadsAs (λ edit. edit) result (replacement_of (value_data value.now)) }
{
    match cells(Part::Document, value)? {
        [number, line] => replacement_with(alloc, number, line),
        _ => Err(LogFault::Refused(Refusal::WrongShape(Part::Document))),
    }
}

/// Reads replacements, or returns the refusal of the first that is refused.
fn read_items(alloc: Global, items: &[Value<'_>]) -> Result<Vec<Edit>, LogFault>
    ensures { ReadsAs (λ edits. map (λ edit. edit) edits.items) result
        (each replacement_of (map value_data items.now)) }
{
    let mut edits = Vec::new(alloc);
    for item in items {
        edits.push(replacement_of(alloc, item)?)?;
    }
    Ok(edits)
}

/// Reads a list of replacements.
#[tactic(auto, using(crate::proofs::Edits::map_same), unfolding(crate::specs::Replacements::replacements_of))]
fn read_list(alloc: Global, value: &Value<'_>) -> Result<Vec<Edit>, LogFault>
    ensures { ReadsAs (λ edits. edits.items) result (replacements_of (value_data value.now)) }
{
    read_items(alloc, cells(Part::Document, value)?)
}

/// Reads the replacements that a text lists, in order. Refuses a text that isn't a JSON value, and
/// a value that isn't a list of `[number,"text"]` with numbers of 32 bits.
#[tactic(auto, unfolding(crate::specs::Replacements::replacements_read))]
pub fn read_replacements(alloc: Global, json: &str) -> Result<Vec<Edit>, LogFault>
    ensures { ReadsAs (λ edits. edits.items) result (replacements_read json.now) }
{
    let mut scratch = Scratch::new(alloc);
    let value = read_whole(alloc, json, &mut scratch)?;
    read_list(alloc, &value)
}
