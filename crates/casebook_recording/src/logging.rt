//! Writes the log of a case.
ghost use Rattle.std.specs.Prelude.{IfErr, IfOk};
ghost use Rattle.casebook_recording.specs.Logs.{IsLogOf, IsNoLog, IsRecordingOf, IsUnrecorded};

use crate::recording_fault::RecordingFault;
use crate::telling::told_case;
use casebook_case::{Case, read_case};
use casebook_explain::Noting;
use retro_keep::Recording;
use retro_log::write_log;
use std::alloc::Global;

/// Returns the recording of a case, with the notes of its lines' runs alone.
fn recording_of(alloc: Global, case: &Case) -> Result<Recording, RecordingFault>
    ensures ok { IfOk result (λ recording. IsRecordingOf case.now recording) }
    ensures err { IfErr result (IsUnrecorded case.now) }
{
    let found = told_case(alloc, case)?;
    Ok(found.told.into_recording(alloc, Noting::RunsAlone)?)
}

/// Returns the log of a case, by the bytes of its document.
///
/// # Errors
///
/// `Case` if the bytes aren't the document of a case, or the fault of its lines.
pub fn case_log(alloc: Global, bytes: &[u8]) -> Result<Vec<u8>, RecordingFault>
    ensures ok { IfOk result (λ text. IsLogOf bytes.now text.items) }
    ensures err { IfErr result (IsNoLog bytes.now) }
{
    let case = read_case(alloc, bytes)?;
    let recording = recording_of(alloc, &case)?;
    Ok(write_log(alloc, &recording)?)
}
