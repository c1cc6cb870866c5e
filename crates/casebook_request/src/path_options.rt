//! The paths that the command `lines` is given.
ghost use Rattle.std.specs.Prelude.{◌≡◌, IfOk, option_map};
ghost use Rattle.casebook_request.specs.Request.{begins_at_root, ends_with_slash, path_filters};
ghost use Rattle.casebook_request.specs.Request.{path_in, read_option};
ghost use Rattle.retro_edge.specs.Calls.{call_view};
ghost use Rattle.casebook_request.specs.Views.{Means};

use crate::NoMem;
use crate::path_filters::{NamedPath, PathFilters};
use crate::problem::Problem;
use crate::words::WordsFault;
use retro_edge::CommandCall;
use retro_tree::{Path, Resolved, resolve};
use std::alloc::Global;

/// Returns whether a text begins with a slash.
fn begins_at_root(text: &[u8]) -> bool
    ensures { result ≡ begins_at_root text.now }
{
    match text {
        [b'/', ..] => true,
        _ => false,
    }
}

/// Returns whether a text ends with a slash.
fn ends_with_slash(text: &[u8]) -> bool
    ensures { result ≡ ends_with_slash text.now }
{
    match text.last() {
        Some(byte) => *byte == b'/',
        None => false,
    }
}

/// Returns the path that a text names, which begins at the root. The paths below it count too if
/// the text ends with a slash.
#[tactic(auto, unfolding(crate::specs::Request::path_in))]
fn path_of(alloc: Global, text: &str) -> Result<Option<NamedPath>, NoMem>
    ensures { IfOk result (λ named. named ≡ path_in text.now) }
{
    if !begins_at_root(text.as_bytes()) {
        return Ok(None);
    }
    match resolve(alloc, &Path::root(alloc), text)? {
        Resolved::Is(path) => Ok(Some(NamedPath {
            path,
            below: ends_with_slash(text.as_bytes()),
        })),
        _ => Ok(None),
    }
}

/// Returns the path of an option, if the option is given.
pub(crate) fn path_option(
    alloc: Global,
    text: Option<&str>,
    problem: Problem,
) -> Result<Option<NamedPath>, WordsFault>
    ensures { Means (λ named. named) result
        (read_option problem path_in (option_map (λ s. s.now) text.entry)) }
{
    match text {
        None => Ok(None),
        Some(text) => match path_of(alloc, text)? {
            Some(path) => Ok(Some(path)),
            None => Err(WordsFault::Bad(problem)),
        },
    }
}

/// Returns the paths that a command is given.
pub(crate) fn path_filters(alloc: Global, call: &CommandCall<'_>) -> Result<PathFilters, WordsFault>
    ensures { Means (λ paths. paths) result (path_filters (call_view call.now)) }
{
    let reads = path_option(alloc, call.text_of("reads"), Problem::Reads)?;
    let writes = path_option(alloc, call.text_of("writes"), Problem::Writes)?;
    let touches = path_option(alloc, call.text_of("touches"), Problem::Touches)?;
    Ok(PathFilters {
        reads,
        writes,
        touches,
    })
}
