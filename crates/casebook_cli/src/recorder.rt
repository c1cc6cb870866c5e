//! Spools that are made, records that they take, and their cases.
ghost use Rattle.std.specs.Prelude.{◌≡◌, [], IfErr, IfOk};
ghost use Rattle.casebook_recorder_cli.specs.Views.{import_view, observe_view, start_view};
ghost use Rattle.casebook_cli.specs.Answers.{AnswersImport, AnswersObserve, saying};
ghost use Rattle.casebook_cli.specs.Stops.{NamesSpool, StopsImport, StopsObserve, StopsStart};
ghost use Rattle.casebook_cli.specs.inner.Views.{answer_view};

use crate::answer::Answer;
use casebook_recorder_cli::{
    ImportRequest, ObserveRequest, RecorderFault, Spools, StartRequest, import_in, observe_in,
    start_in,
};
use casebook_repairs::Stop;
use std::alloc::Global;

/// Returns why there is no spool with a name, why it didn't take a record, or why it has no case.
pub(crate) fn recorder_stop(name: &str, fault: RecorderFault) -> Stop<'_>
    ensures { NamesSpool name.entry.now fault result }
{
    match fault {
        RecorderFault::NoMem => Stop::OutOfMemory,
        other => Stop::Recorder(name, other),
    }
}

/// Returns the answer that says nothing.
fn nothing(alloc: Global) -> Answer
    ensures { answer_view result ≡ saying [] }
{
    Answer::of(String::new(alloc))
}

/// Makes the spool that is asked for.
pub(crate) fn start_text<'a, D: Spools>(
    alloc: Global,
    spools: &D,
    request: StartRequest<'a>,
) -> Result<Answer, Stop<'a>>
    ensures ok { IfOk result (λ answer. answer_view answer ≡ saying []) }
    ensures err { IfErr result (StopsStart (start_view request.entry)) }
{
    match start_in(alloc, spools, request.spool, request.folders.as_slice()) {
        Ok(_) => Ok(nothing(alloc)),
        Err(fault) => Err(recorder_stop(request.spool, fault)),
    }
}

/// Has a spool take the record that was sent.
pub(crate) fn observe_text<'a, D: Spools>(
    alloc: Global,
    spools: &D,
    request: ObserveRequest<'a>,
) -> Result<Answer, Stop<'a>>
    ensures ok { IfOk result (λ answer.
        AnswersObserve (D.spools spools.now) (observe_view request.entry) (answer_view answer)) }
    ensures err { IfErr result
        (StopsObserve (D.spools spools.now) (observe_view request.entry)) }
{
    match observe_in(alloc, spools, request.spool) {
        Ok(_spool) => Ok(nothing(alloc)),
        Err(fault) => Err(recorder_stop(request.spool, fault)),
    }
}

/// Writes the case of a spool.
pub(crate) fn import_text<'a, D: Spools>(
    alloc: Global,
    spools: &D,
    request: ImportRequest<'a>,
) -> Result<Answer, Stop<'a>>
    ensures ok { IfOk result (λ answer.
        AnswersImport (D.spools spools.now) (import_view request.entry) (answer_view answer)) }
    ensures err { IfErr result (StopsImport (import_view request.entry)) }
{
    match import_in(alloc, spools, request.spool) {
        Ok(text) => Ok(Answer { text, is_no: false }),
        Err(fault) => Err(recorder_stop(request.spool, fault)),
    }
}
