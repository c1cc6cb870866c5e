//! Reads the document of a script.
ghost use Rattle.std.specs.Prelude.{◌≡◌};
ghost use Rattle.serde_json.specs.Data.{Members};
ghost use Rattle.retro_json.specs.ReadsAs.{ReadsAs};
ghost use Rattle.retro_log.specs.Document.{script_in};
ghost use Rattle.retro_log.specs.inner.Parts.{script_of_parts, script_parts};
ghost use Rattle.retro_log.specs.inner.PartsView.{parts_view};

use crate::reading::document::state_of_rows;
use crate::reading::members::read_parts;
use crate::reading::parts::{Parts, part_at};
use retro_json::{LogFault, Part, Refusal};
use retro_keep::{Script, ScriptLine};
use simdutf8::basic::from_utf8;
use std::alloc::Global;

/// The version of a script's document.
const SCRIPT_VERSION: u64 = 1;

/// Returns the script of a document's parts, or the first refusal.
fn script_of_parts(alloc: Global, parts: Parts<ScriptLine>) -> Result<Script, LogFault>
    requires { (ms : Members) × (parts_view parts ≡ script_parts ms) }
    ensures { ReadsAs (λ script. script) result (script_of_parts (parts_view parts)) }
{
    if parts.from.is_some() {
        return Err(LogFault::Refused(Refusal::UnknownKey));
    }
    parts.fit()?;
    let Parts {
        version,
        tree,
        sessions,
        lines,
        ..
    } = parts;
    let number = part_at(version)?;
    if number != SCRIPT_VERSION {
        return Err(LogFault::Refused(Refusal::BadVersion));
    }
    let rows = part_at(tree)?;
    let others = part_at(sessions);
    let first = state_of_rows(alloc, rows, others)?;
    let texts = part_at(lines)?;
    Ok(Script::of_lawful(first, texts)?)
}

/// Returns the script that a document holds, or the first refusal in this order:
///
/// - the bytes aren't UTF-8, or not exactly one JSON value,
/// - the value isn't an object, has a key that a script doesn't have, or lacks a key (if a key
///   occurs twice, its last value counts),
/// - the version isn't 1,
/// - the tree: a row has a wrong shape, then bad hex, then a broken limit, then the tree isn't
///   lawful,
/// - the sessions: a row has a wrong shape or a number that is listed twice, then a broken limit,
/// - the lines: a row has a wrong shape, then the numbers don't rise, then a session doesn't
///   exist.
///
/// Each of these is tested over its whole list before the next. The first state of the script is
/// marked as lawful.
#[tactic(auto, unfolding(crate::specs::Document::script_in))]
pub fn read_script(alloc: Global, bytes: &[u8]) -> Result<Script, LogFault>
    ensures { ReadsAs (λ script. script) result (script_in bytes.now) }
{
    let Ok(text) = from_utf8(bytes) else {
        return Err(LogFault::Refused(Refusal::NotJson));
    };
    match read_parts(alloc, text)? {
        Some(parts) => script_of_parts(alloc, parts),
        None => Err(LogFault::Refused(Refusal::WrongShape(Part::Document))),
    }
}
