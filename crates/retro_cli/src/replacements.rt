//! Lines whose text is replaced, on the command line: a JSON list of `[number,"text"]` (RFC 8259).
ghost use Rattle.std.specs.Prelude.{◌≡◌};
ghost use Rattle.retro_json.specs.Replacements.{replacements_in};
ghost use Rattle.retro_cli.specs.Words.{Means};

use crate::words::WordsFault;
use retro_json::read_replacements;
use retro_keep::Edit;
use std::alloc::Global;

/// Returns the replacements that a text lists, in order. Fails with `BadWords` for any other text.
pub(crate) fn replacements_of(alloc: Global, json: &str) -> Result<Vec<Edit>, WordsFault>
    ensures { Means (λ edits. edits.items) result (replacements_in json.now) }
{
    Ok(read_replacements(alloc, json)?)
}
