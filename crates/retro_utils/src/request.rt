//! How the fields of utilities are read.
ghost use Rattle.std.specs.Prelude.{◌≡◌, IfOk, map, string_bytes};
ghost use Rattle.retro_text.specs.Request.{known_letters, request_in};

use retro_text::{KnownLetters, Request, UsageError};
use retro_tree::NoMem;
use std::alloc::Global;

/// Returns the options and operands in the fields of a utility, or `None` if they can't be read.
/// The utility knows the given letters: those of options without an argument, and those of options
/// with one.
pub(crate) fn request_of<'a>(
    alloc: Global,
    flags: &[u8],
    arguments: &[u8],
    fields: &'a [String],
) -> Result<Option<Request<'a>>, NoMem>
    ensures { IfOk result (λ request. request
        ≡ request_in (known_letters flags.now arguments.now) (map string_bytes fields.entry.now)) }
{
    let known = KnownLetters { flags, arguments };
    match Request::of(alloc, &known, fields) {
        Ok(request) => Ok(Some(request)),
        Err(UsageError::Usage) => Ok(None),
        Err(UsageError::NoMem) => Err(NoMem),
    }
}
