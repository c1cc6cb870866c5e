//! What a recorder doesn't know.
ghost use Rattle.std.specs.Prelude.{◌≡◌, ◌≤◌, ◌⊎◌, ◌^◌, ◌++◌, IfErr, IfOk, OnOk, length, map};
ghost use Rattle.casebook_typed.specs.Values.{session_value};
ghost use Rattle.casebook_account.specs.Lacks.{incomplete_from, number_if, rows_in, unseen_in};
ghost use Rattle.casebook_recording.specs.declared.recording_fault.RecordingFault.TheVariants as faults;

use crate::NoMem;
use crate::machine_line::printed;
use casebook_recording::RecordingFault;
use casebook_typed::Session;
use retro_tree::Text;
use std::alloc::Global;

/// Appends the number of a session, if some of its lines have no record.
fn push_if(numbers: &mut Vec<u32>, number: u32, session: &Session<'_>) -> Result<(), NoMem>
    ensures { OnOk result (numbers.new.items
        ≡ numbers.old.items ++ number_if number (session_value session.now).missing) }
{
    if session.missing > 0 {
        numbers.push(number)?;
    }
    Ok(())
}

/// Returns the numbers of the sessions of which some lines have no record. The first session has the
/// number 1.
pub(crate) fn incomplete_of(
    alloc: Global,
    sessions: &[Session<'_>],
) -> Result<Vec<u32>, RecordingFault>
    ensures ok { IfOk result (λ numbers.
        numbers.items ≡ incomplete_from 1 (map session_value sessions.now)) }
    ensures err { IfErr result (λ fault. fault ≡ faults.NoMem
        ⊎ fault ≡ faults.TooManySessions × 2 ^ 32 ≤ length sessions.now) }
{
    let mut numbers = Vec::new(alloc);
    for (index, session) in sessions.iter().enumerate() {
        let Ok(number) = u32::try_from(index + 1) else {
            return Err(RecordingFault::TooManySessions);
        };
        push_if(&mut numbers, number, session)?;
    }
    Ok(numbers)
}

/// Returns the rows of a text that aren't empty.
fn rows_in(alloc: Global, text: &[u8]) -> Result<Vec<&[u8]>, NoMem>
    ensures { IfOk result (λ rows. map (λ row. row.now) rows.items ≡ rows_in text.now) }
{
    text.split(|byte| *byte == b'\n')
        .filter(|row| !row.is_empty())
        .collect(alloc)
}

/// Returns the folders that rows name, as texts.
pub(crate) fn unseen_in(alloc: Global, text: &[u8]) -> Result<Vec<Text>, NoMem>
    ensures { IfOk result (λ texts. texts.items ≡ unseen_in text.now) }
{
    let rows = rows_in(alloc, text)?;
    let mut texts = Vec::with_capacity(alloc, rows.len())?;
    for row in rows.as_slice() {
        texts.push(printed(alloc, row)?)?;
    }
    Ok(texts)
}
