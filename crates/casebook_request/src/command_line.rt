//! The request that the words of the command line make.
ghost use Rattle.std.specs.Prelude.{◌≡◌, map, option_map, string_bytes};
ghost use Rattle.casebook_request.specs.Request.{command_request, compare_in, folder_repair_in};
ghost use Rattle.casebook_request.specs.Request.{is_undo, observe_asked, query_in, restore_asked};
ghost use Rattle.casebook_request.specs.Request.{request_in, topic_asked, topic_in};
ghost use Rattle.casebook_request.specs.Request.{topic_or_program};
ghost use Rattle.retro_edge.specs.Calls.{call_view};
ghost use Rattle.casebook_request.specs.Views.{Means, compare_view, folder_repair_view};
ghost use Rattle.casebook_request.specs.Views.{query_view, request_view};

use crate::line_options::lines_request;
use crate::options::{case_of, is_given, log_of};
use crate::problem::Problem;
use crate::query::Query;
use crate::repair_options::{cat_request, page_request, repair_request, show_request};
use crate::request::{CompareRequest, FolderRepair, Request};
use crate::topic::Topic;
use crate::words::{WordsFault, call_in};
use casebook_folder_cli::{
    compared_snapshot, restore_request, script_request, snapshot_request, undo_request,
};
use casebook_recorder_cli::{import_request, observe_request, start_request, status_request};
use retro_edge::{CallFault, CommandCall};
use std::alloc::Global;

/// Returns what a text says that help is about.
#[tactic(auto, unfolding(crate::specs::Request::topic_in))]
fn topic_of(text: &str) -> Option<Topic>
    ensures { result ≡ topic_in text.now }
{
    match text {
        "lines" => Some(Topic::Lines),
        "show" => Some(Topic::Show),
        "page" => Some(Topic::Page),
        "cat" => Some(Topic::Cat),
        "patch" => Some(Topic::Patch),
        "check" => Some(Topic::Check),
        "snapshot" => Some(Topic::Snapshot),
        "compare" => Some(Topic::Compare),
        "restore" => Some(Topic::Restore),
        "script" => Some(Topic::Script),
        "observe" => Some(Topic::Observe),
        "import" => Some(Topic::Import),
        "status" => Some(Topic::Status),
        "log" => Some(Topic::Log),
        "lists" => Some(Topic::Lists),
        "documents" => Some(Topic::Documents),
        "refusals" => Some(Topic::Refusals),
        "profile" => Some(Topic::Profile),
        _ => None,
    }
}

/// Returns what help is about, if it is asked for by the command `help`.
fn topic_asked(text: Option<&str>) -> Result<Topic, WordsFault>
    ensures { Means (λ t. t) result (topic_asked (option_map (λ s. s.now) text.entry)) }
{
    match text {
        None => Ok(Topic::Program),
        Some(text) => topic_of(text).ok_or(WordsFault::Bad(Problem::Topic)),
    }
}

/// Returns what the help on a command is about.
fn topic_of_command(name: &str) -> Topic
    ensures { result ≡ topic_or_program (topic_in name.now) }
{
    match topic_of(name) {
        Some(topic) => topic,
        None => Topic::Program,
    }
}

/// Returns the question of a command, which isn't asked for help.
#[tactic(auto, unfolding(crate::specs::Request::query_in))]
fn query_of<'a>(alloc: Global, call: &CommandCall<'a>) -> Result<Query<'a>, WordsFault>
    ensures { Means query_view result (query_in (call_view call.now)) }
{
    match call.name {
        "lines" => Ok(Query::Lines(lines_request(alloc, call)?)),
        "show" => Ok(Query::Show(show_request(alloc, call)?)),
        "page" => Ok(Query::Page(page_request(alloc, call)?)),
        "cat" => Ok(Query::Cat(cat_request(alloc, call)?)),
        "patch" => Ok(Query::Patch(repair_request(alloc, call)?)),
        "check" => Ok(Query::Check(log_of(call)?)),
        "log" => Ok(Query::Log(case_of(call)?)),
        _ => Err(WordsFault::Bad(Problem::Words)),
    }
}

/// Returns what the command `compare` asks for.
fn compare_request<'a>(
    alloc: Global,
    call: &CommandCall<'a>,
) -> Result<CompareRequest<'a>, WordsFault>
    ensures { Means compare_view result (compare_in (call_view call.now)) }
{
    let log = log_of(call)?;
    let snapshot = compared_snapshot(alloc, call, is_given(call, "mounts"))?;
    Ok(CompareRequest { log, snapshot })
}

/// Returns whether the command `restore` takes a restore back: it has an undo file, and no log.
fn is_undo(call: &CommandCall<'_>) -> bool
    ensures { result ≡ is_undo (call_view call.now) }
{
    call.text_of("log").is_none() && call.text_of("undo").is_some()
}

/// Returns which repair the command `restore` brings into which folder.
fn folder_repair<'a>(alloc: Global, call: &CommandCall<'a>) -> Result<FolderRepair<'a>, WordsFault>
    ensures { Means folder_repair_view result (folder_repair_in (call_view call.now)) }
{
    let repair = repair_request(alloc, call)?;
    let folder = restore_request(alloc, call, is_given(call, "apply"))?;
    Ok(FolderRepair { repair, folder })
}

/// Returns what the command `restore` asks for.
fn restore_of<'a>(alloc: Global, call: &CommandCall<'a>) -> Result<Request<'a>, WordsFault>
    ensures { Means request_view result (restore_asked (call_view call.now)) }
{
    if is_undo(call) {
        return Ok(Request::Undo(undo_request(call, is_given(call, "apply"))?));
    }
    Ok(Request::Restore(folder_repair(alloc, call)?))
}

/// Returns what the command `observe` asks for.
fn observe_of<'a>(alloc: Global, call: &CommandCall<'a>) -> Result<Request<'a>, WordsFault>
    ensures { Means request_view result (observe_asked (call_view call.now)) }
{
    if is_given(call, "start") {
        return Ok(Request::Start(start_request(alloc, call)?));
    }
    Ok(Request::Observe(observe_request(call)?))
}

/// Returns the request of a command.
#[tactic(auto, unfolding(crate::specs::Request::command_request))]
fn command_request<'a>(alloc: Global, call: &CommandCall<'a>) -> Result<Request<'a>, WordsFault>
    ensures { Means request_view result (command_request (call_view call.now)) }
{
    if is_given(call, "help") {
        return Ok(Request::Help(topic_of_command(call.name)));
    }
    if call.name == "help" {
        return Ok(Request::Help(topic_asked(call.text_of("command"))?));
    }
    if call.name == "snapshot" {
        let is_entered = is_given(call, "mounts");
        return Ok(Request::Snapshot(snapshot_request(alloc, call, is_entered)?));
    }
    if call.name == "compare" {
        return Ok(Request::Compare(compare_request(alloc, call)?));
    }
    if call.name == "restore" {
        return restore_of(alloc, call);
    }
    if call.name == "script" {
        return Ok(Request::Script(script_request(call)?));
    }
    if call.name == "observe" {
        return observe_of(alloc, call);
    }
    if call.name == "import" {
        return Ok(Request::Import(import_request(call)?));
    }
    if call.name == "status" {
        return Ok(Request::Status(status_request(call)?));
    }
    Ok(Request::Ask(query_of(alloc, call)?))
}

/// Returns the request that words make. The first word is the program's name. Fails with `Bad` if
/// the words make none.
#[tactic(auto, unfolding(crate::specs::Request::request_in))]
pub fn read_words<'a>(alloc: Global, words: &'a [String]) -> Result<Request<'a>, WordsFault>
    ensures { Means request_view result (request_in (map string_bytes words.entry.now)) }
{
    match call_in(alloc, words) {
        Ok(Some(call)) => command_request(alloc, &call),
        Ok(None) => Ok(Request::Help(Topic::Program)),
        Err(CallFault::Refused) => Err(WordsFault::Bad(Problem::Words)),
        Err(CallFault::NoMem) => Err(WordsFault::NoMem),
    }
}
