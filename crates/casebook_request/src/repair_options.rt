//! The requests of commands about repairs.
ghost use Rattle.std.specs.Prelude.{◌≡◌, IfOk, option_map};
ghost use Rattle.retro_edge.specs.Numbers.{numbers_in};
ghost use Rattle.casebook_request.specs.Request.{bytes_given, bytes_with, cancel_given};
ghost use Rattle.casebook_request.specs.Request.{cat_request, page_request};
ghost use Rattle.casebook_request.specs.Request.{read_option, repair_request};
ghost use Rattle.casebook_request.specs.Request.{replacements_given, rounds_given};
ghost use Rattle.casebook_request.specs.Request.{rounds_with, show_format, show_request};
ghost use Rattle.casebook_request.specs.Request.{shown_as, shown_of};
ghost use Rattle.retro_edge.specs.Calls.{call_view};
ghost use Rattle.casebook_request.specs.Views.{Means, cat_view, page_view, repair_view};
ghost use Rattle.casebook_request.specs.Views.{rounds_view, show_view};

use crate::NoMem;
use crate::options::{check_input, is_given, log_of, number_option};
use crate::path_filters::NamedPath;
use crate::path_options::path_option;
use crate::problem::Problem;
use crate::repair_request::{BytesOf, CatRequest, PageRequest, RepairRequest, ShowRequest};
use crate::rounds::Rounds;
use crate::shown::{Extras, ShownPart};
use crate::words::WordsFault;
use retro_edge::{CommandCall, numbers_in};
use retro_json::{LogFault, read_replacements};
use retro_keep::Edit;
use std::alloc::Global;

/// The greatest number of lines in a round, unless cuts are given.
const MOST_IN_ROUND: u32 = 64;

/// Returns the list of lines to cancel, which may be left out if lines are replaced.
fn cancel_of<'a>(call: &CommandCall<'a>) -> Result<&'a str, WordsFault>
    ensures { Means (λ list. list.now) result (cancel_given (call_view call.now)) }
{
    match call.text_of("cancel") {
        Some(list) => Ok(list),
        None if call.text_of("replace").is_some() => Ok(""),
        None => Err(WordsFault::Bad(Problem::NoList)),
    }
}

/// Returns the edits of the lines whose text is replaced.
fn replacements_of(alloc: Global, text: Option<&str>) -> Result<Vec<Edit>, WordsFault>
    ensures { Means (λ edits. edits.items) result
        (replacements_given (option_map (λ s. s.now) text.entry)) }
{
    let Some(text) = text else {
        return Ok(Vec::new(alloc));
    };
    match read_replacements(alloc, text) {
        Ok(edits) => Ok(edits),
        Err(LogFault::NoMem) => Err(WordsFault::NoMem),
        Err(LogFault::Refused(_)) => Err(WordsFault::Bad(Problem::Replace)),
    }
}

/// Returns the numbers of an option's list, if the option is given.
fn numbers_option(
    alloc: Global,
    text: Option<&str>,
    problem: Problem,
) -> Result<Option<Vec<u32>>, WordsFault>
    ensures { Means (option_map (λ numbers. numbers.items)) result
        (read_option problem numbers_in (option_map (λ s. s.now) text.entry)) }
{
    match text {
        None => Ok(None),
        Some(text) => match numbers_in(alloc, text)? {
            Some(numbers) => Ok(Some(numbers)),
            None => Err(WordsFault::Bad(problem)),
        },
    }
}

/// Returns how lines are run ahead in parallel: they aren't, if neither is given.
fn rounds_with(
    alloc: Global,
    workers: Option<u32>,
    cuts: Option<Vec<u32>>,
) -> Result<Option<Rounds>, NoMem>
    ensures { IfOk result (λ rounds. option_map rounds_view rounds
        ≡ rounds_with workers (option_map (λ numbers. numbers.items) cuts)) }
{
    if workers.is_none() && cuts.is_none() {
        return Ok(None);
    }
    let cuts = match cuts {
        Some(cuts) => cuts,
        None => Vec::from_slice(alloc, &[MOST_IN_ROUND])?,
    };
    let workers = workers.unwrap_or(0) as usize;
    Ok(Some(Rounds { workers, cuts }))
}

/// Returns how lines are to be run ahead in parallel, if they are.
fn rounds_given(alloc: Global, call: &CommandCall<'_>) -> Result<Option<Rounds>, WordsFault>
    ensures { Means (option_map rounds_view) result (rounds_given (call_view call.now)) }
{
    let workers = number_option(call.text_of("workers"), Problem::Workers)?;
    let cuts = numbers_option(alloc, call.text_of("cuts"), Problem::Cuts)?;
    Ok(rounds_with(alloc, workers, cuts)?)
}

/// Returns which repair is asked for.
pub(crate) fn repair_request<'a>(
    alloc: Global,
    call: &CommandCall<'a>,
) -> Result<RepairRequest<'a>, WordsFault>
    ensures { Means repair_view result (repair_request (call_view call.now)) }
{
    let log = log_of(call)?;
    let cancel = cancel_of(call)?;
    let replacements = replacements_of(alloc, call.text_of("replace"))?;
    let rounds = rounds_given(alloc, call)?;
    let about = call.text_of("about");
    check_input(log, cancel, about)?;
    Ok(RepairRequest {
        log,
        cancel,
        replacements,
        rounds,
        about,
    })
}

/// Returns whether a repair is shown for programs.
#[tactic(auto, unfolding(crate::specs::Request::show_format))]
fn is_json(text: Option<&str>) -> Result<bool, WordsFault>
    ensures { Means (λ is. is) result (show_format (option_map (λ s. s.now) text.entry)) }
{
    match text {
        None | Some("text") => Ok(false),
        Some("json") => Ok(true),
        Some(_) => Err(WordsFault::Bad(Problem::RepairFormat)),
    }
}

/// Returns what is shown of a repair: one line, if its number is given, and otherwise the summary
/// with what else is asked for. For programs the summary is all.
fn shown_as(is_json: bool, extras: Extras, line: Option<u32>) -> Result<ShownPart, WordsFault>
    ensures { Means (λ shown. shown) result (shown_as is_json extras line) }
{
    if !is_json {
        return match line {
            Some(number) => Ok(ShownPart::Line(number)),
            None => Ok(ShownPart::Summary(extras)),
        };
    }
    if extras.why || extras.diff || line.is_some() {
        return Err(WordsFault::Bad(Problem::MixedFormat));
    }
    Ok(ShownPart::Json)
}

/// Returns what is to be shown of a repair.
fn shown_of(call: &CommandCall<'_>) -> Result<ShownPart, WordsFault>
    ensures { Means (λ shown. shown) result (shown_of (call_view call.now)) }
{
    let line = number_option(call.text_of("line"), Problem::Line)?;
    let is_json = is_json(call.text_of("format"))?;
    let extras = Extras {
        why: is_given(call, "why"),
        diff: is_given(call, "diff"),
    };
    shown_as(is_json, extras, line)
}

/// Returns the request of the command `show`.
pub(crate) fn show_request<'a>(
    alloc: Global,
    call: &CommandCall<'a>,
) -> Result<ShowRequest<'a>, WordsFault>
    ensures { Means show_view result (show_request (call_view call.now)) }
{
    let repair = repair_request(alloc, call)?;
    let shown = shown_of(call)?;
    Ok(ShowRequest { repair, shown })
}

/// Returns the request of the command `page`.
pub(crate) fn page_request<'a>(
    alloc: Global,
    call: &CommandCall<'a>,
) -> Result<PageRequest<'a>, WordsFault>
    ensures { Means page_view result (page_request (call_view call.now)) }
{
    let repair = repair_request(alloc, call)?;
    Ok(PageRequest {
        repair,
        title: call.text_of("title"),
        all: is_given(call, "all"),
    })
}

/// Returns of what bytes are wanted: of the file at a path, or of what a line prints.
fn bytes_with(path: Option<NamedPath>, line: Option<u32>) -> Result<BytesOf, WordsFault>
    ensures { Means (λ bytes. bytes) result (bytes_with path line) }
{
    match (path, line) {
        (Some(named), None) => Ok(BytesOf::File(named.path)),
        (None, Some(number)) => Ok(BytesOf::Output(number)),
        (None, None) => Err(WordsFault::Bad(Problem::NoPath)),
        (Some(_), Some(_)) => Err(WordsFault::Bad(Problem::PathAndLine)),
    }
}

/// Returns of what the command `cat` is to write the bytes.
fn bytes_given(alloc: Global, call: &CommandCall<'_>) -> Result<BytesOf, WordsFault>
    ensures { Means (λ bytes. bytes) result (bytes_given (call_view call.now)) }
{
    let path = path_option(alloc, call.text_of("path"), Problem::Path)?;
    let line = number_option(call.text_of("line"), Problem::Line)?;
    bytes_with(path, line)
}

/// Returns the request of the command `cat`.
pub(crate) fn cat_request<'a>(
    alloc: Global,
    call: &CommandCall<'a>,
) -> Result<CatRequest<'a>, WordsFault>
    ensures { Means cat_view result (cat_request (call_view call.now)) }
{
    let repair = repair_request(alloc, call)?;
    let bytes = bytes_given(alloc, call)?;
    Ok(CatRequest { repair, bytes })
}
