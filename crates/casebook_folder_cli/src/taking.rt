//! Snapshots that are taken of a folder or of a stream, or read from a document.
ghost use Rattle.std.specs.Prelude.{IfErr, IfOk, IfSome};
ghost use Rattle.casebook_folder_cli.specs.Sources.{IsArchived, IsTaken};
ghost use Rattle.casebook_folder_cli.specs.Taking.{IsBadDocument, IsBadStream, IsCompared};
ghost use Rattle.casebook_folder_cli.specs.Taking.{IsNotCompared, IsNotTaken, IsRead, IsWrong};
ghost use Rattle.casebook_folder_cli.specs.Views.{compared_view, request_view};

use crate::folders::{Folders, snapshot_at};
use crate::request::{ComparedSnapshot, SnapshotRequest};
use crate::source::Source;
use crate::source_fault::SourceFault;
use casebook_snapshot::Snapshot;
use casebook_snapshot_read::read_snapshot;
use casebook_tar::read_members;
use casebook_tar_tree::TarListing;
use retro_path::Path;
use std::alloc::Global;

/// A snapshot, and the path at which its folder is put.
#[derive(Drop)]
pub(crate) struct PlacedSnapshot {
    /// The snapshot.
    pub(crate) snapshot: Snapshot,
    /// The path.
    pub(crate) at: Path,
}

/// Takes a snapshot of a stream of tar, which is put at a path, without the paths to skip and what
/// is below them.
fn of_stream(
    alloc: Global,
    stream: &[u8],
    at: &Path,
    skip: &[Path],
) -> Result<Snapshot, SourceFault>
    ensures ok { IfOk result (IsArchived stream.now at.now skip.now) }
    ensures err { IfErr result (IsWrong (IsBadStream stream.now)) }
{
    let members = read_members(alloc, stream)?;
    let listing = TarListing::of(alloc, stream, members.as_slice())?;
    Ok(snapshot_at(alloc, listing, at, skip)?)
}

/// Reads the document of a snapshot.
fn of_document(alloc: Global, bytes: &[u8]) -> Result<PlacedSnapshot, SourceFault>
    ensures ok { IfOk result (λ read. IsRead bytes.now read.snapshot read.at) }
    ensures err { IfErr result (IsWrong (IsBadDocument bytes.now)) }
{
    let document = read_snapshot(alloc, bytes)?;
    Ok(PlacedSnapshot {
        snapshot: document.snapshot,
        at: document.at,
    })
}

/// Takes the snapshot that is asked for.
pub(crate) fn taken<F: Folders>(
    alloc: Global,
    folders: &F,
    request: &SnapshotRequest<'_>,
) -> Result<Snapshot, SourceFault>
    ensures ok { IfOk result (λ s. IfSome (F.holds folders.now) (λ at. IsTaken at
        (request_view request.now).source request.now.at (request_view request.now).skip s)) }
    ensures err { IfErr result (λ fault. IfSome (F.holds folders.now) (λ at.
        IsNotTaken at (request_view request.now).source fault)) }
{
    let at = &request.at;
    let skip = request.skip.as_slice();
    match request.source {
        Source::Folder(name, mounts) => {
            let listing = folders.list(alloc, name, mounts)?;
            Ok(snapshot_at(alloc, listing, at, skip)?)
        }
        Source::Archive(name) => {
            let stream = folders.file(alloc, name)?;
            of_stream(alloc, stream.as_slice(), at, skip)
        }
    }
}

/// Takes or reads the snapshot with which a recording is compared.
pub(crate) fn compared<F: Folders>(
    alloc: Global,
    folders: &F,
    request: &ComparedSnapshot<'_>,
) -> Result<PlacedSnapshot, SourceFault>
    ensures ok { IfOk result (λ s. IfSome (F.holds folders.now) (λ at.
        IsCompared at (compared_view request.now) s.snapshot s.at)) }
    ensures err { IfErr result (λ fault. IfSome (F.holds folders.now) (λ at.
        IsNotCompared at (compared_view request.now) fault)) }
{
    match request {
        ComparedSnapshot::Taken(request) => Ok(PlacedSnapshot {
            snapshot: taken(alloc, folders, request)?,
            at: request.at.copy()?,
        }),
        ComparedSnapshot::Document(name) => {
            let bytes = folders.file(alloc, name)?;
            of_document(alloc, bytes.as_slice())
        }
    }
}
