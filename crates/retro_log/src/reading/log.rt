//! Reads the document of a log.
ghost use Rattle.std.specs.Prelude.{◌≡◌, ◌≤◌, IsTrue};
ghost use Rattle.std.specs.List.{list_all};
ghost use Rattle.serde_json.specs.Data.{Members};
ghost use Rattle.retro_tree.specs.Lawful.{IsLawful};
ghost use Rattle.retro_keep.specs.Recording.{is_line_of_kind, is_own_line};
ghost use Rattle.retro_json.specs.ReadsAs.{ReadsAs};
ghost use Rattle.retro_log.specs.Document.{log_in, recording_of};
ghost use Rattle.retro_log.specs.inner.Parts.{from_of_parts, log_of_parts, log_parts};
ghost use Rattle.retro_log.specs.inner.PartsView.{parts_view};

use crate::reading::document::state_of_rows;
use crate::reading::members::read_parts;
use crate::reading::parts::{Parts, part_at};
use retro_json::{LogFault, OrRefusal, Part, Refusal};
use retro_keep::{Noted, Recording};
use retro_tree::State;
use simdutf8::basic::from_utf8;
use std::alloc::Global;

/// Returns the recording of a lawful state, the line at which it begins, and lines. Refuses numbers
/// that don't rise or a number below the beginning, then a session that doesn't exist, then a
/// change that isn't lawful. The lines' notes must name their own session alone, and their answers
/// must be of their queries' kinds.
fn recording_of(
    alloc: Global,
    first: State,
    from: u32,
    lines: Vec<(u32, Noted)>,
) -> Result<Recording, LogFault>
    requires lawful { IsLawful first }
    requires begins { 1 ≤ from }
    requires own { IsTrue (list_all is_own_line lines.items) }
    requires of_kind { IsTrue (list_all is_line_of_kind lines.items) }
    ensures { ReadsAs (λ r. r) result (recording_of first from lines.items) }
{
    Ok(Recording::of_lawful(alloc, first, from, lines)?)
}

/// Returns the line at which a log of a version begins: version 1 doesn't say it, and version 2
/// does.
fn from_of_version(version: u64, from: Option<OrRefusal<u32>>) -> OrRefusal<u32>
    ensures { result ≡ from_of_parts version from }
{
    match (version, from) {
        (1, None) => Ok(1),
        (1, Some(_)) => Err(Refusal::UnknownKey),
        (2, Some(from)) => from,
        (2, None) => Err(Refusal::WrongShape(Part::Document)),
        _ => Err(Refusal::BadVersion),
    }
}

/// Returns the recording of a log's parts, or the first refusal.
fn recording_of_parts(alloc: Global, parts: Parts<(u32, Noted)>) -> Result<Recording, LogFault>
    requires { (ms : Members) × (parts_view parts ≡ log_parts ms) }
    ensures { ReadsAs (λ r. r) result (log_of_parts (parts_view parts)) }
{
    parts.fit()?;
    let Parts {
        version,
        from,
        tree,
        sessions,
        lines,
        ..
    } = parts;
    let number = part_at(version)?;
    let begin = from_of_version(number, from)?;
    let rows = part_at(tree)?;
    let others = part_at(sessions);
    let first = state_of_rows(alloc, rows, others)?;
    let noted = part_at(lines)?;
    recording_of(alloc, first, begin, noted)
}

/// Returns the recording that a log holds, of version 1 or 2, or the first refusal in this order:
///
/// - the bytes aren't UTF-8, or not exactly one JSON value,
/// - the value isn't an object, has a key that neither version has, or lacks a key that both have
///   (if a key occurs twice, its last value counts),
/// - the version isn't a whole number, or neither 1 nor 2,
/// - a log of version 1 has `from`, or one of version 2 lacks it,
/// - `from` isn't a whole number from 1 to 2^32 - 1,
/// - the tree and the sessions, as [`read_script`](crate::read_script) reads them,
/// - the lines: a wrong shape, then bad hex, then a broken limit, each anywhere in the list,
/// - the numbers of lines don't rise or one is below `from`, then a line's session doesn't exist,
///   then a change isn't lawful in the state that it changes.
///
/// The recording begins at `from`, and that of a log of version 1 at line 1. Noted answers aren't
/// compared with the states.
#[tactic(auto, unfolding(crate::specs::Document::log_in))]
pub fn read_log(alloc: Global, bytes: &[u8]) -> Result<Recording, LogFault>
    ensures { ReadsAs (λ recording. recording) result (log_in bytes.now) }
{
    let Ok(text) = from_utf8(bytes) else {
        return Err(LogFault::Refused(Refusal::NotJson));
    };
    match read_parts(alloc, text)? {
        Some(parts) => recording_of_parts(alloc, parts),
        None => Err(LogFault::Refused(Refusal::WrongShape(Part::Document))),
    }
}
