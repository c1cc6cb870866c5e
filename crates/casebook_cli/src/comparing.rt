//! Comparisons of recordings with snapshots.
ghost use Rattle.std.specs.Prelude.{◌≡◌, IfOk, IfErr, IfSome};
ghost use Rattle.casebook_text.specs.SafeLine.{text_of_lines};
ghost use Rattle.casebook_request.specs.Views.{compare_view};
ghost use Rattle.casebook_cli.specs.Answers.{AnswersCompare};
ghost use Rattle.casebook_cli.specs.Harmless.{IsHarmless};
ghost use Rattle.casebook_cli.specs.Stops.{StopsCompare};
ghost use Rattle.casebook_cli.specs.inner.Views.{answer_view};

use crate::NoMem;
use crate::answer::Answer;
use crate::plain::plain_lines;
use crate::snapshots::snapshot_stop;
use casebook_folder_cli::{CompareAnswer, Folders, compare_answer};
use casebook_repairs::{Documents, Progress, Step, Stop, read_document, shown_account};
use casebook_request::CompareRequest;
use std::alloc::Global;

/// Returns what a comparison says, as an answer.
fn shown(alloc: Global, compared: &CompareAnswer) -> Result<Answer, NoMem>
    ensures text { IfOk result (λ answer.
        answer.text.items ≡ text_of_lines compared.now.lines.items) }
    ensures no { IfOk result (λ answer. answer.is_no ≡ compared.now.is_no) }
    ensures harmless { IfOk result (λ answer. IsHarmless answer.text.items) }
{
    Ok(Answer {
        text: plain_lines(alloc, compared.lines.as_slice())?.into_bytes(),
        is_no: compared.is_no,
    })
}

/// Returns what a comparison finds, and tells what is said of the snapshot beside it.
pub(crate) fn compare_text<'a, D: Documents + Folders + Progress>(
    alloc: Global,
    documents: &D,
    request: CompareRequest<'a>,
) -> Result<Answer, Stop<'a>>
    ensures ok { IfOk result (λ answer. IfSome (D.bytes_of documents.now) (λ at.
        IfSome (D.holds documents.now) (λ folders.
        AnswersCompare at folders (compare_view request.entry) (answer_view answer)))) }
    ensures err { IfErr result (λ stop. IfSome (D.bytes_of documents.now) (λ at.
        IfSome (D.holds documents.now) (λ folders.
        StopsCompare at folders (compare_view request.entry) stop))) }
{
    let log = read_document(alloc, documents, request.log)?;
    documents.begin(Step::Reading(log.bytes.len()));
    let account = shown_account(alloc, &log)?;
    match compare_answer(alloc, documents, &request.snapshot, &account.recording) {
        Ok(answer) => {
            documents.remark(&answer.remark);
            Ok(shown(alloc, &answer)?)
        }
        Err(fault) => Err(snapshot_stop(request.snapshot.name(), fault)),
    }
}
