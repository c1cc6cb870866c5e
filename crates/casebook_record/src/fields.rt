//! The fields of bytes.
ghost use Rattle.std.specs.Prelude.{◌≡◌, ◌==◌, IfOk, map};
ghost use Rattle.std.specs.List.{slice_split};
ghost use Rattle.casebook_record.specs.Fields.{fields_of, wrong_count};
ghost use Rattle.casebook_record.specs.Reads.{Reads};

use crate::NoMem;
use crate::record_error::RecordError;
use retro_path::Bytes;
use std::alloc::Global;

/// The byte that ends a field.
const NUL: u8 = 0;

/// Splits bytes at a separator. Returns the parts, empty ones too.
pub(crate) fn split(alloc: Global, bytes: &[u8], separator: u8) -> Result<Vec<&[u8]>, NoMem>
    ensures { IfOk result (λ parts. map (λ part. part.now) parts.items
        ≡ slice_split (λ b. b == separator) bytes.now) }
{
    bytes.split(|byte| *byte == separator).collect(alloc)
}

/// Splits the bytes of a record into its fields, each ended by a NUL.
#[tactic(auto, unfolding(crate::specs::Fields::fields_of))]
pub fn fields_of(alloc: Global, bytes: &[u8]) -> Result<Vec<&[u8]>, RecordError>
    ensures { Reads (λ fields. map (λ field. field.now) fields.items) result (fields_of bytes.now) }
{
    match bytes {
        [fields @ .., NUL] => Ok(split(alloc, fields, NUL)?),
        _ => Err(RecordError::CutOff),
    }
}

/// Returns why fields aren't exactly so many.
pub(crate) fn wrong_count(wanted: usize, fields: &[&[u8]]) -> RecordError
    ensures { result ≡ wrong_count wanted (map (λ field. field.now) fields.now) }
{
    if fields.len() < wanted {
        RecordError::CutOff
    } else {
        RecordError::TooMany
    }
}

/// Returns a copy of a field.
pub(crate) fn bytes_of(alloc: Global, field: &[u8]) -> Result<Bytes, NoMem>
    ensures { IfOk result (λ bytes. bytes ≡ field.now) }
{
    Ok(Bytes::of(Vec::from_slice(alloc, field)?))
}
