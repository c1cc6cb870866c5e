//! Pairs of fields: a word, and a text or nothing.
ghost use Rattle.std.specs.Prelude.{◌≡◌, IfOk, ok_or};
ghost use Rattle.casebook_record.specs.Reads.{Reads};
ghost use Rattle.casebook_record.specs.Texts.{change_of, line_of, text_after};
ghost use Rattle.casebook_record.specs.declared.record_error.Field.TheVariants.{Line};
ghost use Rattle.casebook_record.specs.declared.record_error.RecordError.TheVariants.{Wrong};

use crate::NoMem;
use crate::fields::bytes_of;
use crate::record_error::{Field, RecordError};
use retro_path::Bytes;
use std::alloc::Global;

/// Returns the text after the word `given`, or nothing after the word `none` and before an empty
/// text. Returns `None` if the fields are neither.
fn text_after(
    alloc: Global,
    given: &[u8],
    none: &[u8],
    word: &[u8],
    text: &[u8],
) -> Result<Option<Option<Bytes>>, NoMem>
    ensures { IfOk result (λ said. said
        ≡ text_after given.now none.now word.now text.now) }
{
    if word == given {
        return Ok(Some(Some(bytes_of(alloc, text)?)));
    }
    if word == none && text.is_empty() {
        return Ok(Some(None));
    }
    Ok(None)
}

/// Returns the text of a line, or nothing if it is hidden.
#[tactic(auto, unfolding(crate::specs::Texts::line_of))]
pub(crate) fn line_of(alloc: Global, word: &[u8], text: &[u8]) -> Result<Option<Bytes>, RecordError>
    ensures { Reads (λ said. said) result (ok_or (line_of word.now text.now) (Wrong Line)) }
{
    Field::Line.or_wrong(text_after(alloc, b"shown", b"hidden", word, text)?)
}

/// Returns the new text of a field, or nothing if it is the same.
#[tactic(auto, unfolding(crate::specs::Texts::change_of))]
pub(crate) fn change_of(
    alloc: Global,
    field: Field,
    word: &[u8],
    text: &[u8],
) -> Result<Option<Bytes>, RecordError>
    ensures { Reads (λ said. said) result (ok_or (change_of word.now text.now) (Wrong field)) }
{
    field.or_wrong(text_after(alloc, b"new", b"same", word, text)?)
}
