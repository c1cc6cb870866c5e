//! Logs of cases.
ghost use Rattle.std.specs.Prelude.{IfErr, IfOk};
ghost use Rattle.casebook_recording.specs.Logs.{IsLogOf};
ghost use Rattle.casebook_recording.specs.Refusals.{refusal_of};
ghost use Rattle.casebook_cli.specs.Answers.{Says};
ghost use Rattle.casebook_repairs.specs.Stops.{NamesCase};
ghost use Rattle.casebook_cli.specs.Stops.{StopsCase};
ghost use Rattle.casebook_repairs.specs.Views.{document_view};
ghost use Rattle.casebook_cli.specs.inner.Views.{answer_view};

use crate::answer::Answer;
use casebook_recording::{RecordingFault, case_log};
use casebook_repairs::{Document, Stop, case_stop};
use std::alloc::Global;

/// Returns the log of a case.
pub(crate) fn case_answer<'a>(alloc: Global, document: &Document<'a>) -> Result<Answer, Stop<'a>>
    ensures ok { IfOk result (λ answer.
        Says (IsLogOf document.now.bytes.items) (answer_view answer)) }
    ensures err { IfErr result (StopsCase (document_view document.now)) }
{
    match case_log(alloc, document.bytes.as_slice()) {
        Ok(text) => Ok(Answer { text, is_no: false }),
        Err(fault) => Err(case_stop(document.name, &fault)),
    }
}
