//! The request of the command `lines`.
ghost use Rattle.std.specs.Prelude.{◌≡◌, IfOk, option_map};
ghost use Rattle.casebook_request.specs.Bounds.{bound_in, last_bound_in};
ghost use Rattle.casebook_request.specs.Request.{bounds_given, format_given, format_named};
ghost use Rattle.casebook_request.specs.Request.{lines_request, read_option};
ghost use Rattle.retro_edge.specs.Calls.{call_view};
ghost use Rattle.casebook_request.specs.Views.{Means, lines_view};
ghost use Rattle.casebook_request.specs.declared.problem.Problem.TheVariants as problems;

use crate::NoMem;
use crate::bound::Bound;
use crate::bounds::Bounds;
use crate::format::Format;
use crate::lines_request::LinesRequest;
use crate::options::{check_input, is_given, log_of, number_option};
use crate::path_options::path_filters;
use crate::problem::Problem;
use crate::words::WordsFault;
use retro_edge::CommandCall;
use retro_text::number_of;
use std::alloc::Global;

/// Returns the first bound that a text is: the number of a line, or a time.
#[tactic(auto, unfolding(crate::specs::Bounds::bound_in))]
fn bound_of(alloc: Global, text: &str) -> Result<Option<Bound>, NoMem>
    ensures { IfOk result (λ bound. bound ≡ bound_in text.now) }
{
    if let Some(number) = number_of(text) {
        return Ok(Some(Bound::Line(number)));
    }
    Ok(casebook_about::second_of(alloc, text)?.map(Bound::Second))
}

/// Returns the last bound that a text is: the number of a line, or the last second of a time.
#[tactic(auto, unfolding(crate::specs::Bounds::last_bound_in))]
fn last_bound_of(alloc: Global, text: &str) -> Result<Option<Bound>, NoMem>
    ensures { IfOk result (λ bound. bound ≡ last_bound_in text.now) }
{
    if let Some(number) = number_of(text) {
        return Ok(Some(Bound::Line(number)));
    }
    Ok(casebook_about::last_second_of(alloc, text)?.map(Bound::Second))
}

/// Returns the first bound, if its option is given.
fn from_option(alloc: Global, text: Option<&str>) -> Result<Option<Bound>, WordsFault>
    ensures { Means (λ bound. bound) result
        (read_option problems.From bound_in (option_map (λ s. s.now) text.entry)) }
{
    match text {
        None => Ok(None),
        Some(text) => match bound_of(alloc, text)? {
            Some(bound) => Ok(Some(bound)),
            None => Err(WordsFault::Bad(Problem::From)),
        },
    }
}

/// Returns the last bound, if its option is given.
fn to_option(alloc: Global, text: Option<&str>) -> Result<Option<Bound>, WordsFault>
    ensures { Means (λ bound. bound) result
        (read_option problems.To last_bound_in (option_map (λ s. s.now) text.entry)) }
{
    match text {
        None => Ok(None),
        Some(text) => match last_bound_of(alloc, text)? {
            Some(bound) => Ok(Some(bound)),
            None => Err(WordsFault::Bad(Problem::To)),
        },
    }
}

/// Returns the bounds that a command is given.
fn bounds_given(alloc: Global, call: &CommandCall<'_>) -> Result<Bounds, WordsFault>
    ensures { Means (λ bounds. bounds) result (bounds_given (call_view call.now)) }
{
    let from = from_option(alloc, call.text_of("from"))?;
    let to = to_option(alloc, call.text_of("to"))?;
    Ok(Bounds { from, to })
}

/// Returns the format that a text names.
#[tactic(auto, unfolding(crate::specs::Request::format_named))]
fn format_named(text: &str) -> Option<Format>
    ensures { result ≡ format_named text.now }
{
    match text {
        "text" => Some(Format::Text),
        "tsv" => Some(Format::Tsv),
        "numbers" => Some(Format::Numbers),
        _ => None,
    }
}

/// Returns the format of an option, text if it isn't given.
fn format_of(text: Option<&str>) -> Result<Format, WordsFault>
    ensures { Means (λ f. f) result (format_given (option_map (λ s. s.now) text.entry)) }
{
    match text {
        None => Ok(Format::Text),
        Some(text) => format_named(text).ok_or(WordsFault::Bad(Problem::Format)),
    }
}

/// Returns the request for rows of lines.
pub(crate) fn lines_request<'a>(
    alloc: Global,
    call: &CommandCall<'a>,
) -> Result<LinesRequest<'a>, WordsFault>
    ensures { Means lines_view result (lines_request (call_view call.now)) }
{
    let log = log_of(call)?;
    let session = number_option(call.text_of("session"), Problem::Session)?;
    let bounds = bounds_given(alloc, call)?;
    let paths = path_filters(alloc, call)?;
    let format = format_of(call.text_of("format"))?;
    let about = call.text_of("about");
    check_input(log, "", about)?;
    Ok(LinesRequest {
        log,
        about,
        user: call.text_of("user"),
        session,
        bounds,
        paths,
        text: call.text_of("text"),
        shown: call.text_of("shown"),
        is_unknown: is_given(call, "unknown"),
        format,
    })
}
