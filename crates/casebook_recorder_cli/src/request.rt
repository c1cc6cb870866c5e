//! Requests to the recorder.
ghost use Rattle.std.specs.Prelude.{◌≡◌, map, option_map};
ghost use Rattle.retro_edge.specs.Calls.{call_view};
ghost use Rattle.casebook_recorder_cli.specs.Views.{Means, import_view, observe_view, start_view};
ghost use Rattle.casebook_recorder_cli.specs.Views.{status_view};
ghost use Rattle.casebook_recorder_cli.specs.Words.{folders_given, import_in, observe_in};
ghost use Rattle.casebook_recorder_cli.specs.Words.{spool_given, start_in, status_in};
ghost use Rattle.casebook_recorder_cli.specs.declared.request.WordsFault.TheVariants as faults;

use crate::NoMem;
use retro_edge::{CommandCall, paths_named};
use retro_path::Path;
use std::alloc::{AllocFailed, Global};

/// What is wrong with the words of the command.
#[derive(Clone, Copy, Debug, PartialEq, Eq)]
pub enum RecorderProblem {
    /// No spool is named.
    NoSpool,
    /// A spool is to be made, and no folder is named.
    NoFolder,
    /// A record is to be taken, and a folder is named.
    HasFolder,
    /// A folder isn't named by its path from the root.
    Folder,
}

/// Why words ask for nothing.
#[derive(Clone, Copy, Debug, PartialEq, Eq)]
pub enum WordsFault {
    /// Allocation failed.
    NoMem,
    /// The words are bad.
    Bad(RecorderProblem),
}

impl From<NoMem> for WordsFault {
    ghost from_gives = { λ _ e. e ≡ faults.NoMem };

    fn from(_error: NoMem) -> WordsFault {
        WordsFault::NoMem
    }
}

impl<T: Drop> From<AllocFailed<T>> for WordsFault {
    ghost from_gives = { λ _ e. e ≡ faults.NoMem };

    fn from(_error: AllocFailed<T>) -> WordsFault {
        WordsFault::NoMem
    }
}

/// To which spool a record goes.
#[derive(Clone, Copy, Debug, Drop, PartialEq, Eq)]
pub struct ObserveRequest<'a> {
    /// The name of the spool.
    pub spool: &'a str,
}

/// Which spool is made, for which folders.
#[derive(Drop)]
pub struct StartRequest<'a> {
    /// The name of the spool.
    pub spool: &'a str,
    /// The folders that are watched.
    pub folders: Vec<Path>,
}

/// The case of which spool is written.
#[derive(Clone, Copy, Debug, Drop, PartialEq, Eq)]
pub struct ImportRequest<'a> {
    /// The name of the spool.
    pub spool: &'a str,
}

/// Of which spool it is said what it has.
#[derive(Clone, Copy, Debug, Drop, PartialEq, Eq)]
pub struct StatusRequest<'a> {
    /// The name of the spool.
    pub spool: &'a str,
    /// The name of the list of those who are logged in, if one is given.
    pub who: Option<&'a str>,
}

/// Returns the name of the spool.
fn spool_given<'a>(call: &CommandCall<'a>) -> Result<&'a str, WordsFault>
    ensures { Means (λ s. s.now) result (spool_given (call_view call.now)) }
{
    call.text_of("spool")
        .ok_or(WordsFault::Bad(RecorderProblem::NoSpool))
}

/// Returns the folders that are named: at least one.
fn folders_given(alloc: Global, texts: Option<&[&str]>) -> Result<Vec<Path>, WordsFault>
    ensures { Means (λ paths. paths.items) result
        (folders_given (option_map (λ texts. map (λ s. s.now) texts.now) texts.entry)) }
{
    match texts {
        None => Err(WordsFault::Bad(RecorderProblem::NoFolder)),
        Some(texts) => {
            paths_named(alloc, texts)?.ok_or(WordsFault::Bad(RecorderProblem::Folder))
        }
    }
}

/// Returns to which spool the record goes that `observe` takes.
pub fn observe_request<'a>(call: &CommandCall<'a>) -> Result<ObserveRequest<'a>, WordsFault>
    ensures { Means observe_view result (observe_in (call_view call.now)) }
{
    let spool = spool_given(call)?;
    if call.texts_of("folder").is_some() {
        return Err(WordsFault::Bad(RecorderProblem::HasFolder));
    }
    Ok(ObserveRequest { spool })
}

/// Returns which spool `observe --start` makes.
pub fn start_request<'a>(
    alloc: Global,
    call: &CommandCall<'a>,
) -> Result<StartRequest<'a>, WordsFault>
    ensures { Means start_view result (start_in (call_view call.now)) }
{
    let spool = spool_given(call)?;
    let folders = folders_given(alloc, call.texts_of("folder"))?;
    Ok(StartRequest { spool, folders })
}

/// Returns of which spool `import` writes the case.
pub fn import_request<'a>(call: &CommandCall<'a>) -> Result<ImportRequest<'a>, WordsFault>
    ensures { Means import_view result (import_in (call_view call.now)) }
{
    let spool = spool_given(call)?;
    Ok(ImportRequest { spool })
}

/// Returns of which spool `status` says what it has.
pub fn status_request<'a>(call: &CommandCall<'a>) -> Result<StatusRequest<'a>, WordsFault>
    ensures { Means status_view result (status_in (call_view call.now)) }
{
    let spool = spool_given(call)?;
    let who = call.text_of("who");
    Ok(StatusRequest { spool, who })
}
