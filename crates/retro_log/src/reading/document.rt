//! Reads what scripts and logs have in common: a version, the number of a line, and a state.
ghost use Rattle.std.specs.Prelude.{◌≡◌, ◌≤◌, Err, IfOk, None, Ok, Some, map};
ghost use Rattle.retro_tree.specs.Lawful.{IsLawful};
ghost use Rattle.serde_json.specs.Data.{Data};
ghost use Rattle.retro_value.specs.Borrowed.{value_data};
ghost use Rattle.retro_value.specs.Left.{value_left};
ghost use Rattle.retro_value.specs.declared.error.ReadError.TheVariants.{NotJson};
ghost use Rattle.retro_json.specs.ReadsAs.{ReadsAs, seen};
ghost use Rattle.retro_json.specs.Rows.{session_rows};
ghost use Rattle.retro_json.specs.Views.{row_view};
ghost use Rattle.retro_log.specs.Document.{line_number_in, version_in};
ghost use Rattle.retro_log.specs.inner.Parts.{state_of_rows};

use json::{Reader, Value};
use retro_json::{LogFault, OrRefusal, Part, Refusal, Row, tree_of_rows, u32_in, with_sessions};
use retro_tree::{Entry, Path, State};
use retro_value::{DEPTH, ReadError, read_value, unsigned_in};
use std::alloc::Global;

/// How deep the value of a member may nest.
pub const MEMBER_DEPTH: usize = DEPTH - 1;

/// Returns the number of a version, whichever it is. Refuses a value that isn't a whole number.
fn version_in(value: &Value<'_>) -> OrRefusal<u64>
    ensures { result ≡ version_in (value_data value.now) }
{
    match unsigned_in(value) {
        Some(version) => Ok(version),
        None => Err(Refusal::WrongShape(Part::Version)),
    }
}

/// Reads the number of a version from the next value.
pub fn read_version(alloc: Global, reader: &mut Reader<'_>) -> Result<OrRefusal<u64>, ReadError>
    ensures value { IfOk result (λ version. (d : Data)
        × (value_left 126 reader.old ≡ Some (d, reader.new)) × (version ≡ version_in d)) }
    ensures not_json { result ≡ Err NotJson → value_left 126 reader.old ≡ None }
{
    Ok(version_in(&read_value(alloc, reader, MEMBER_DEPTH)?))
}

/// Returns a line number: a whole number from 1 to 2^32 - 1. Refuses any other value.
pub fn line_number(value: &Value<'_>) -> OrRefusal<u32>
    ensures value { result ≡ line_number_in (value_data value.now) }
    ensures least { IfOk result (λ n. 1 ≤ n) }
{
    let number = u32_in(Part::Version, value)?;
    if number == 0 {
        return Err(Refusal::WrongShape(Part::Version));
    }
    Ok(number)
}

/// Returns the state of the rows of a tree and of sessions. The state is lawful.
#[tactic(auto, using(retro_json::proofs::Limits::state_is_lawful))]
pub fn state_of_rows(
    alloc: Global,
    tree: Vec<(Path, Entry)>,
    sessions: OrRefusal<Vec<Row>>,
) -> Result<State, LogFault>
    requires read { IfOk sessions (λ rows.
        (d : Data) × (Ok (map row_view rows.items) ≡ session_rows d)) }
    ensures value { ReadsAs (λ s. s) result (state_of_rows tree.items
        (seen (λ v. map row_view v.items) sessions)) }
    ensures lawful { IfOk result (λ s. IsLawful s) }
{
    let state = tree_of_rows(alloc, tree)?;
    with_sessions(alloc, state, sessions?)
}
