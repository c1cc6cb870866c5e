//! Requests for scripts.
ghost use Rattle.std.specs.Prelude.{◌≡◌};
ghost use Rattle.retro_edge.specs.Calls.{call_view};
ghost use Rattle.casebook_folder_cli.specs.ScriptWords.{is_input_twice, script_asked};
ghost use Rattle.casebook_folder_cli.specs.Views.{Means, script_view};

use crate::request::{FolderFault, FolderProblem};
use retro_edge::CommandCall;

/// Of which files a script is made, by their names.
#[derive(Clone, Copy, Debug, PartialEq, Eq)]
pub struct ScriptRequest<'a> {
    /// The document of a snapshot.
    pub document: &'a str,
    /// The table of sessions.
    pub sessions: &'a str,
    /// The table of lines.
    pub lines: &'a str,
}

/// Returns whether two of the files are standard input.
fn is_input_twice(request: &ScriptRequest<'_>) -> bool
    ensures { result ≡ is_input_twice (script_view request.now) }
{
    let from_document = request.document == "-";
    let from_sessions = request.sessions == "-";
    let from_lines = request.lines == "-";
    (from_document && (from_sessions || from_lines)) || (from_sessions && from_lines)
}

/// Returns of which files the command `script` makes a script.
pub fn script_request<'a>(call: &CommandCall<'a>) -> Result<ScriptRequest<'a>, FolderFault>
    ensures { Means script_view result (script_asked (call_view call.now)) }
{
    let Some(document) = call.text_of("document") else {
        return Err(FolderFault::Bad(FolderProblem::NoDocument));
    };
    let Some(sessions) = call.text_of("sessions") else {
        return Err(FolderFault::Bad(FolderProblem::NoSessions));
    };
    let Some(lines) = call.text_of("lines") else {
        return Err(FolderFault::Bad(FolderProblem::NoLines));
    };
    let request = ScriptRequest {
        document,
        sessions,
        lines,
    };
    if is_input_twice(&request) {
        return Err(FolderFault::Bad(FolderProblem::InputTwice));
    }
    Ok(request)
}
