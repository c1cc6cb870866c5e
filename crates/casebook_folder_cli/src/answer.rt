//! Answers to requests for snapshots.
ghost use Rattle.std.specs.Prelude.{IfErr, IfOk, IfSome, string_bytes};
ghost use Rattle.casebook_folder_cli.specs.Answers.{IsInstant, IsSnapshotAnswer};
ghost use Rattle.casebook_folder_cli.specs.Taking.{IsNotTaken};
ghost use Rattle.casebook_folder_cli.specs.Views.{request_view};

use crate::folders::Folders;
use crate::remark::snapshot_words;
use crate::request::SnapshotRequest;
use crate::source_fault::SourceFault;
use crate::taking::taken;
use casebook_about::instant_text;
use casebook_snapshot::SnapshotError;
use casebook_snapshot_json::write_snapshot;
use casebook_text::SafeLine;
use jiff::Error;
use std::alloc::Global;

/// The document of a snapshot, and what is said beside it.
#[derive(Drop)]
pub struct SnapshotAnswer {
    /// The document.
    pub document: Vec<u8>,
    /// How many paths it has, and how many were skipped for which reason.
    pub remark: SafeLine,
}

/// Returns a time, in seconds since the start of 1970 (UTC), as the document has it.
fn taken_text(alloc: Global, second: i64) -> Result<String, SnapshotError>
    ensures { IfOk result (λ text. IsInstant (string_bytes text)) }
{
    match instant_text(alloc, second) {
        Ok(text) => Ok(text),
        Err(Error::OutOfMemory) => Err(SnapshotError::NoMem),
        Err(_) => Err(SnapshotError::Failed),
    }
}

/// Takes the snapshot that is asked for, and says what time it is.
pub fn snapshot_answer<F: Folders>(
    alloc: Global,
    folders: &F,
    request: &SnapshotRequest<'_>,
) -> Result<SnapshotAnswer, SourceFault>
    ensures ok { IfOk result (λ answer. IfSome (F.holds folders.now) (λ at.
        IsSnapshotAnswer at (request_view request.now) answer)) }
    ensures err { IfErr result (λ fault. IfSome (F.holds folders.now) (λ at.
        IsNotTaken at (request_view request.now).source fault)) }
{
    let time = taken_text(alloc, folders.now()?)?;
    let snapshot = taken(alloc, folders, request)?;
    let name = request.source.name();
    let document = write_snapshot(alloc, &snapshot, &request.at, name, time.as_str())?;
    let remark = snapshot_words(alloc, &snapshot)?;
    Ok(SnapshotAnswer { document, remark })
}
