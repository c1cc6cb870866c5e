//! Requests for restores.
ghost use Rattle.std.specs.Prelude.{◌≡◌, map, option_map};
ghost use Rattle.retro_edge.specs.Calls.{call_view};
ghost use Rattle.casebook_folder_cli.specs.RestoreWords.{is_mixed, only_given, restore_in};
ghost use Rattle.casebook_folder_cli.specs.RestoreWords.{root_given, undo_given, undo_in};
ghost use Rattle.casebook_folder_cli.specs.Views.{Means, restore_view, undo_view};

use crate::request::{FolderFault, FolderProblem, place_given};
use retro_edge::{CommandCall, paths_named};
use retro_path::Path;
use std::alloc::Global;

/// Which folder is restored, in which paths, and whether that is only planned.
#[derive(Drop)]
pub struct RestoreRequest<'a> {
    /// The name of the folder.
    pub root: &'a str,
    /// The path at which the folder is put.
    pub at: Path,
    /// The chosen paths. If there are none, all are chosen.
    pub only: Vec<Path>,
    /// The name of the undo file, if the plan is to be carried out.
    pub undo: Option<&'a str>,
}

/// Which restore is taken back in which folder.
#[derive(Drop)]
pub struct UndoRequest<'a> {
    /// The name of the folder.
    pub root: &'a str,
    /// The name of the undo file.
    pub undo: &'a str,
    /// Whether it is carried out, and not only planned.
    pub apply: bool,
}

/// Returns the name of the folder that is restored.
fn root_given<'a>(call: &CommandCall<'a>) -> Result<&'a str, FolderFault>
    ensures { Means (λ s. s.now) result (root_given (call_view call.now)) }
{
    call.text_of("root")
        .ok_or(FolderFault::Bad(FolderProblem::NoRoot))
}

/// Returns the chosen paths: none, unless some are given.
fn only_given(alloc: Global, texts: Option<&[&str]>) -> Result<Vec<Path>, FolderFault>
    ensures { Means (λ paths. paths.items) result
        (only_given (option_map (λ texts. map (λ s. s.now) texts.now) texts.entry)) }
{
    match texts {
        None => Ok(Vec::new(alloc)),
        Some(texts) => { paths_named(alloc, texts)?.ok_or(FolderFault::Bad(FolderProblem::Only)) }
    }
}

/// Returns the name of the undo file, if a plan is to be carried out.
fn undo_given<'a>(apply: bool, undo: Option<&'a str>) -> Result<Option<&'a str>, FolderFault>
    ensures { Means (option_map (λ s. s.now)) result
        (undo_given apply (option_map (λ s. s.now) undo.entry)) }
{
    match (apply, undo) {
        (true, None) => Err(FolderFault::Bad(FolderProblem::NoUndo)),
        (false, Some(_)) => Err(FolderFault::Bad(FolderProblem::NoApply)),
        (_, undo) => Ok(undo),
    }
}

/// Returns what the command `restore` asks for, by whether it is to be carried out.
pub fn restore_request<'a>(
    alloc: Global,
    call: &CommandCall<'a>,
    apply: bool,
) -> Result<RestoreRequest<'a>, FolderFault>
    ensures { Means restore_view result (restore_in apply (call_view call.now)) }
{
    let root = root_given(call)?;
    let at = place_given(alloc, call.text_of("at"))?;
    let only = only_given(alloc, call.texts_of("only"))?;
    let undo = undo_given(apply, call.text_of("undo"))?;
    Ok(RestoreRequest {
        root,
        at,
        only,
        undo,
    })
}

/// Returns whether a call has what only a restore of a log can have.
fn is_mixed(call: &CommandCall<'_>) -> bool
    ensures { result ≡ is_mixed (call_view call.now) }
{
    call.text_of("cancel").is_some()
        || call.text_of("replace").is_some()
        || call.text_of("workers").is_some()
        || call.text_of("cuts").is_some()
        || call.text_of("at").is_some()
        || call.texts_of("only").is_some()
}

/// Returns which restore the command `restore` takes back, by whether that is to be carried out.
pub fn undo_request<'a>(call: &CommandCall<'a>, apply: bool) -> Result<UndoRequest<'a>, FolderFault>
    ensures { Means undo_view result (undo_in apply (call_view call.now)) }
{
    if is_mixed(call) {
        return Err(FolderFault::Bad(FolderProblem::Mixed));
    }
    let root = root_given(call)?;
    let Some(undo) = call.text_of("undo") else {
        return Err(FolderFault::Bad(FolderProblem::NoUndo));
    };
    Ok(UndoRequest { root, undo, apply })
}
