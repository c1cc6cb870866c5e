//! Lines of the machine.
ghost use Rattle.std.specs.Prelude.{◌≡◌, ◌≤◌, ◌+◌, ◌⊎◌, ◌^◌, ℕ, IfErr, IfOk, None, Some, map};
ghost use Rattle.std.specs.Prelude.{option_map};
ghost use Rattle.casebook_typed.specs.Values.{line_value};
ghost use Rattle.casebook_account.specs.Machine.{IsTooMany, machine_from, machine_line};
ghost use Rattle.casebook_account.specs.Machine.{printed, seconds_of, typed_text};
ghost use Rattle.casebook_recording.specs.declared.recording_fault.RecordingFault.TheVariants as faults;

use crate::NoMem;
use casebook_explain::ToldLine;
use casebook_record::Micros;
use casebook_recording::RecordingFault;
use casebook_text::SafeLine;
use casebook_typed::{Owner, TypedLine};
use retro_path::Bytes;
use retro_tree::Text;
use std::alloc::Global;
use std::str::from_utf8;

/// A line that a recorder saw on a machine, with the texts by which its recording has it.
#[derive(Drop)]
pub struct MachineLine {
    /// Its number: 1 for the first line, and so on.
    pub number: u32,
    /// The number of its session. That of changes that no line made is 0.
    pub session: u32,
    /// Its text as it was typed. If that isn't UTF-8, it is shown as on a terminal. A remark stands
    /// for a text that isn't known.
    pub text: Text,
    /// When it was seen, in seconds since the start of 1970 (UTC).
    pub second: i64,
    /// Whether it stands as it was observed, and not as what Retro's shell does.
    pub is_observed: bool,
    /// Whether other lines were open while it did what was seen. It isn't known which of them did it.
    pub overlaps: bool,
    /// The number of its first text.
    pub first: u32,
    /// The number after that of its last text.
    pub end: u32,
}

/// The text of a line that the history leaves out.
const HIDDEN: &str = "# a line that the history leaves out";

/// The text of changes that no line made.
const NOBODYS: &str = "# changes outside of the recorded sessions";

/// Returns bytes as a text: as they are, if they are UTF-8, and otherwise as a terminal shows them.
#[tactic(auto, using(crate::proofs::Printed::printing))]
pub(crate) fn printed(alloc: Global, bytes: &[u8]) -> Result<Text, NoMem>
    ensures { IfOk result (λ text. text ≡ printed bytes.now) }
{
    if let Ok(text) = from_utf8(bytes) {
        return Ok(Text::of(String::from_str(alloc, text)?));
    }
    let mut line = SafeLine::new(alloc);
    line.push_bytes(alloc, bytes)?;
    Ok(Text::of(String::from_str(alloc, line.as_str())?))
}

/// Returns the text of a line, or a remark if it isn't known.
fn typed_text(alloc: Global, owner: &Owner, text: Option<&Bytes>) -> Result<Text, NoMem>
    ensures { IfOk result (λ found.
        found ≡ typed_text owner.now (option_map (λ text. text.now) text.entry)) }
{
    match (owner, text) {
        (Owner::Nobody, _) => Ok(Text::of(String::from_str(alloc, NOBODYS)?)),
        (Owner::Line(_), Some(text)) => printed(alloc, text.as_slice()),
        (Owner::Line(_), None) => Ok(Text::of(String::from_str(alloc, HIDDEN)?)),
    }
}

/// Returns the seconds of a time.
fn seconds_of(time: Micros) -> i64
    ensures { result ≡ seconds_of time }
{
    (time.get() / 1_000_000) as i64
}

/// Returns the number after those of some texts, of which the first one has a number.
fn number_after(first: u32, count: usize) -> Option<u32>
    ensures some { (end : ℕ) → result ≡ Some end → end ≡ first + count }
    ensures none { result ≡ None → 2 ^ 32 ≤ first + count }
{
    match u32::try_from(count) {
        Ok(count) => first.checked_add(count),
        Err(_) => None,
    }
}

/// Returns the lines that were told, with the numbers of their texts.
pub(crate) fn machine_lines(
    alloc: Global,
    told: &[ToldLine],
    lines: &[TypedLine<'_>],
) -> Result<Vec<MachineLine>, RecordingFault>
    ensures ok { IfOk result (λ found.
        found.items ≡ machine_from 1 1 told.now (map line_value lines.now)) }
    ensures err { IfErr result (λ fault.
        fault ≡ faults.NoMem ⊎ fault ≡ faults.TooManyLines × IsTooMany told.now) }
{
    let mut found = Vec::new(alloc);
    let mut number = 1_u32;
    let mut first = 1_u32;
    for (one, line) in told.iter().zip(lines) {
        let Some(end) = number_after(first, one.runs.len()) else {
            return Err(RecordingFault::TooManyLines);
        };
        found.push(MachineLine {
            number,
            session: one.session,
            text: typed_text(alloc, &line.owner, line.text)?,
            second: seconds_of(line.shown.at),
            is_observed: !one.is_modelled,
            overlaps: !line.overlapping.is_empty(),
            first,
            end,
        })?;
        let Some(next) = number.checked_add(1) else {
            return Err(RecordingFault::TooManyLines);
        };
        (number, first) = (next, end);
    }
    Ok(found)
}
