//! Snapshots of folders and of streams.
ghost use Rattle.std.specs.Prelude.{IfOk, IfErr, IfSome};
ghost use Rattle.casebook_folder_cli.specs.Sources.{source_name};
ghost use Rattle.casebook_folder_cli.specs.Taking.{IsNotTaken};
ghost use Rattle.casebook_folder_cli.specs.Views.{request_view as snapshot_view};
ghost use Rattle.casebook_cli.specs.Answers.{AnswersSnapshot};
ghost use Rattle.casebook_cli.specs.Stops.{NamesSource, StopsSnapshot};
ghost use Rattle.casebook_cli.specs.inner.Views.{answer_view};

use crate::answer::Answer;
use casebook_folder_cli::{Folders, SnapshotRequest, SourceFault, snapshot_answer};
use casebook_repairs::{Documents, Hindrance, Progress, Stop};
use std::alloc::Global;

/// Returns why there is no snapshot of the folder or the file with a name.
pub(crate) fn snapshot_stop(name: &str, fault: SourceFault) -> Stop<'_>
    ensures { NamesSource name.entry.now fault result }
{
    match fault {
        SourceFault::NoMem => Stop::OutOfMemory,
        SourceFault::Unreadable => Stop::ReadFailed(name, Hindrance::Other),
        SourceFault::NotADirectory => Stop::NotADirectory(name),
        SourceFault::BadFile(fault) => Stop::BadFile(name, fault),
    }
}

/// Returns the document of a snapshot, and tells what is said beside it.
pub(crate) fn snapshot_text<'a, D: Documents + Folders + Progress>(
    alloc: Global,
    documents: &D,
    request: SnapshotRequest<'a>,
) -> Result<Answer, Stop<'a>>
    ensures ok { IfOk result (λ answer. IfSome (D.bytes_of documents.now) (λ at.
        IfSome (D.holds documents.now) (λ folders.
        AnswersSnapshot folders (snapshot_view request.entry) (answer_view answer)))) }
    ensures err { let source = (snapshot_view request.entry).source in
        IfErr result (λ stop. IfSome (D.bytes_of documents.now) (λ at.
        IfSome (D.holds documents.now) (λ folders.
        StopsSnapshot (IsNotTaken folders source) (source_name source) stop))) }
{
    match snapshot_answer(alloc, documents, &request) {
        Ok(answer) => {
            documents.remark(&answer.remark);
            Ok(Answer {
                text: answer.document,
                is_no: false,
            })
        }
        Err(fault) => Err(snapshot_stop(request.source.name(), fault)),
    }
}
