//! Answers to requests.
ghost use Rattle.std.specs.Prelude.{◌≡◌, IfOk, IfErr, IfSome, IsTrue, string_bytes};
ghost use Rattle.casebook_request.specs.Request.{help_text};
ghost use Rattle.casebook_request.specs.Views.{page_view, query_view, repair_view, request_view};
ghost use Rattle.casebook_request.specs.Views.{show_view};
ghost use Rattle.casebook_cli.specs.Answers.{Answers, AnswersBy, AnswersQuery, saying};
ghost use Rattle.casebook_cli.specs.Harmless.{IsHarmless, is_plain, is_plain_shown};
ghost use Rattle.casebook_cli.specs.Pages.{IsPage};
ghost use Rattle.casebook_cli.specs.Screens.{IsShown};
ghost use Rattle.casebook_repairs.specs.Stops.{StopsAsked};
ghost use Rattle.casebook_cli.specs.Stops.{Stops, StopsBy, StopsQuery, StopsShow};
ghost use Rattle.casebook_repairs.specs.Views.{inputs_view};
ghost use Rattle.casebook_cli.specs.inner.Views.{answer_view};

use crate::NoMem;
use crate::answer::Answer;
use crate::bytes::bytes_answer;
use crate::cases::case_answer;
use crate::checks::check_answer;
use crate::comparing::compare_text;
use crate::lines_answer::lines_text;
use crate::pages::page_text;
use crate::patches::patch_answer;
use crate::recorder::{import_text, observe_text, start_text};
use crate::restores::{restore_text, undo_text};
use crate::screens::shown_text;
use crate::scripts::script_text;
use crate::snapshots::snapshot_text;
use crate::status::status_text;
use casebook_folder_cli::Folders;
use casebook_recorder_cli::Spools;
use casebook_repairs::{Check, Documents, Inputs, Progress, Stop, asked_repair, read_inputs};
use casebook_request::{PageRequest, Query, Request, ShowRequest, Topic, help_text};
use std::alloc::{AllocGlobal, Global};
use std::thread::Threads;

/// Returns what is shown of the repair that is asked for.
fn show_text<'a, R: Threads + Sync + AllocGlobal, P: Progress>(
    rt: &R,
    progress: &P,
    inputs: &Inputs<'a>,
    request: ShowRequest<'a>,
    colours: bool,
) -> Result<String, Stop<'a>>
    ensures ok { IfOk result (λ text.
        IsShown colours (inputs_view inputs.now) (show_view request.entry) (string_bytes text)) }
    ensures harmless { IfOk result (λ text. IsTrue (is_plain_shown colours request.entry.shown)
        → IsHarmless (string_bytes text)) }
    ensures err { IfErr result (StopsShow (inputs_view inputs.now) (show_view request.entry)) }
{
    let asked = asked_repair(rt, progress, inputs, request.repair, Check::Wanted)?;
    shown_text(rt.alloc(), &asked, request.shown, colours)
}

/// Returns the page of the repair that is asked for.
fn repair_page<'a, R: Threads + Sync + AllocGlobal, P: Progress>(
    rt: &R,
    progress: &P,
    inputs: &Inputs<'a>,
    request: PageRequest<'a>,
) -> Result<String, Stop<'a>>
    ensures ok { IfOk result (λ text.
        IsPage (inputs_view inputs.now) (page_view request.entry) (string_bytes text)) }
    ensures err { IfErr result
        (StopsAsked (inputs_view inputs.now) (repair_view request.entry.repair)) }
{
    let title = request.title.unwrap_or(request.repair.log);
    let asked = asked_repair(rt, progress, inputs, request.repair, Check::Wanted)?;
    Ok(page_text(rt.alloc(), &asked, title, request.all)?)
}

/// Returns the answer to a question about documents.
fn answer_by<'a, R: Threads + Sync + AllocGlobal, P: Progress>(
    rt: &R,
    progress: &P,
    inputs: &Inputs<'a>,
    query: Query<'a>,
    colours: bool,
) -> Result<Answer, Stop<'a>>
    ensures ok { IfOk result (λ answer. AnswersBy colours (inputs_view inputs.now)
        (query_view query.entry) (answer_view answer)) }
    ensures harmless { IfOk result (λ answer. IsTrue (is_plain colours (query_view query.entry))
        → IsHarmless answer.text.items) }
    ensures err { IfErr result (StopsBy (inputs_view inputs.now) (query_view query.entry)) }
{
    let text = match query {
        Query::Lines(request) => lines_text(rt.alloc(), progress, inputs, request)?,
        Query::Show(request) => show_text(rt, progress, inputs, request, colours)?,
        Query::Page(request) => repair_page(rt, progress, inputs, request)?,
        Query::Cat(request) => return bytes_answer(rt, progress, inputs, request),
        Query::Patch(request) => return patch_answer(rt, progress, inputs, request),
        Query::Check(_) => return Ok(check_answer(rt.alloc(), &inputs.log)?),
        Query::Log(_) => return case_answer(rt.alloc(), &inputs.log),
    };
    Ok(Answer::of(text))
}

/// Reads the documents that a question is about, and returns its answer.
fn asked_answer<'a, R: Threads + Sync + AllocGlobal, D: Documents + Folders + Progress>(
    rt: &R,
    documents: &D,
    query: Query<'a>,
    colours: bool,
) -> Result<Answer, Stop<'a>>
    ensures ok { IfOk result (λ answer. IfSome (D.bytes_of documents.now) (λ at.
        IfSome (D.holds documents.now) (λ folders.
        AnswersQuery colours at (query_view query.entry) (answer_view answer)))) }
    ensures err { IfErr result (λ stop. IfSome (D.bytes_of documents.now) (λ at.
        IfSome (D.holds documents.now) (λ folders.
        StopsQuery at (query_view query.entry) stop))) }
{
    let inputs = read_inputs(rt.alloc(), documents, query.sources())?;
    answer_by(rt, documents, &inputs, query, colours)
}

/// Returns the help on a topic.
fn help_answer(alloc: Global, topic: Topic) -> Result<Answer, NoMem>
    ensures { IfOk result (λ answer. answer_view answer ≡ saying (help_text topic)) }
{
    Ok(Answer::of(String::from_str(alloc, help_text(topic))?))
}

/// Returns the answer to a request, with colours if they are wanted.
pub(crate) fn answer<
    'a,
    R: Threads + Sync + AllocGlobal,
    D: Documents + Folders + Spools + Progress,
>(rt: &R, documents: &D, request: Request<'a>, colours: bool) -> Result<Answer, Stop<'a>>
    ensures ok { IfOk result (λ answer. IfSome (D.bytes_of documents.now) (λ at.
        IfSome (D.holds documents.now) (λ folders.
        Answers colours at folders (D.spools documents.now) (request_view request.entry) (answer_view answer)))) }
    ensures err { IfErr result (λ stop. IfSome (D.bytes_of documents.now) (λ at.
        IfSome (D.holds documents.now) (λ folders.
        Stops at folders (D.spools documents.now) (request_view request.entry) stop))) }
{
    match request {
        Request::Help(topic) => Ok(help_answer(rt.alloc(), topic)?),
        Request::Ask(query) => asked_answer(rt, documents, query, colours),
        Request::Snapshot(request) => snapshot_text(rt.alloc(), documents, request),
        Request::Compare(request) => compare_text(rt.alloc(), documents, request),
        Request::Restore(request) => restore_text(rt, documents, request),
        Request::Undo(request) => undo_text(rt.alloc(), documents, request),
        Request::Script(request) => script_text(rt.alloc(), documents, request),
        Request::Start(request) => start_text(rt.alloc(), documents, request),
        Request::Observe(request) => observe_text(rt.alloc(), documents, request),
        Request::Import(request) => import_text(rt.alloc(), documents, request),
        Request::Status(request) => status_text(rt.alloc(), documents, request),
    }
}
