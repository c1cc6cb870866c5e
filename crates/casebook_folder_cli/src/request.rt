//! Requests for snapshots and for comparisons with them.
ghost use Rattle.std.specs.Prelude.{◌≡◌, map, option_map};
ghost use Rattle.retro_edge.specs.Calls.{call_view};
ghost use Rattle.casebook_folder_cli.specs.Words.{compared_in, compared_name, is_input};
ghost use Rattle.casebook_folder_cli.specs.Words.{paths_given};
ghost use Rattle.casebook_folder_cli.specs.Words.{place_given, snapshot_in, takes_one};
ghost use Rattle.casebook_folder_cli.specs.Views.{Means, compared_view, request_view};
ghost use Rattle.casebook_folder_cli.specs.declared.request.FolderFault.TheVariants as faults;

use crate::NoMem;
use crate::source::{Source, source_of};
use retro_edge::{CommandCall, path_named, paths_named};
use retro_path::Path;
use std::alloc::{AllocFailed, Global};

/// What is wrong with the words of a command about folders.
#[derive(Clone, Copy, Debug, PartialEq, Eq)]
pub enum FolderProblem {
    /// Neither a folder nor a file is named.
    NoFolder,
    /// Several of a folder, a stream and a document are named.
    SeveralSources,
    /// Other file systems are to be entered, and no folder is named.
    MountsOfFile,
    /// The document of a snapshot is named, and something is said of how a snapshot is taken.
    TakenDocument,
    /// The value of `--at` isn't a path from the root.
    At,
    /// A value of `--skip` isn't a path from the root.
    Skip,
    /// Standard input is named twice.
    InputTwice,
    /// No folder is named that is restored.
    NoRoot,
    /// A value of `--only` isn't a path from the root.
    Only,
    /// No undo file is named.
    NoUndo,
    /// An undo file is named, and nothing is to be carried out.
    NoApply,
    /// A restore is to be taken back, and something is chosen or edited.
    Mixed,
    /// No document of a snapshot is named.
    NoDocument,
    /// No table of sessions is named.
    NoSessions,
    /// No table of lines is named.
    NoLines,
}

/// Why words ask for nothing.
#[derive(Clone, Copy, Debug, PartialEq, Eq)]
pub enum FolderFault {
    /// Allocation failed.
    NoMem,
    /// The words are bad.
    Bad(FolderProblem),
}

impl From<NoMem> for FolderFault {
    ghost from_gives = { λ _ e. e ≡ faults.NoMem };

    fn from(_error: NoMem) -> FolderFault {
        FolderFault::NoMem
    }
}

impl<T: Drop> From<AllocFailed<T>> for FolderFault {
    ghost from_gives = { λ _ e. e ≡ faults.NoMem };

    fn from(_error: AllocFailed<T>) -> FolderFault {
        FolderFault::NoMem
    }
}

/// Which snapshot is asked for.
#[derive(Drop)]
pub struct SnapshotRequest<'a> {
    /// The folder or the stream.
    pub source: Source<'a>,
    /// The path at which it is put.
    pub at: Path,
    /// The paths that are skipped, with what is below them.
    pub skip: Vec<Path>,
}

/// Returns the path at which a folder is put: the root, unless another one is given.
pub(crate) fn place_given(alloc: Global, text: Option<&str>) -> Result<Path, FolderFault>
    ensures { Means (λ path. path) result (place_given (option_map (λ s. s.now) text.entry)) }
{
    match text {
        None => Ok(Path::root(alloc)),
        Some(text) => path_named(alloc, text)?.ok_or(FolderFault::Bad(FolderProblem::At)),
    }
}

/// Returns the paths that are skipped: none, unless some are given.
fn paths_given(alloc: Global, texts: Option<&[&str]>) -> Result<Vec<Path>, FolderFault>
    ensures { Means (λ paths. paths.items) result
        (paths_given (option_map (λ texts. map (λ s. s.now) texts.now) texts.entry)) }
{
    match texts {
        None => Ok(Vec::new(alloc)),
        Some(texts) => { paths_named(alloc, texts)?.ok_or(FolderFault::Bad(FolderProblem::Skip)) }
    }
}

/// Returns which snapshot a command asks for, by whether other file systems are entered.
pub fn snapshot_request<'a>(
    alloc: Global,
    call: &CommandCall<'a>,
    is_entered: bool,
) -> Result<SnapshotRequest<'a>, FolderFault>
    ensures { Means request_view result (snapshot_in is_entered (call_view call.now)) }
{
    let source = source_of(call.text_of("folder"), call.text_of("tar"), is_entered)?;
    let at = place_given(alloc, call.text_of("at"))?;
    let skip = paths_given(alloc, call.texts_of("skip"))?;
    Ok(SnapshotRequest { source, at, skip })
}

/// The snapshot with which a recording is compared.
#[derive(Drop)]
pub enum ComparedSnapshot<'a> {
    /// One that is taken now.
    Taken(SnapshotRequest<'a>),
    /// The one that is in the document with a name.
    Document(&'a str),
}

impl<'a> ComparedSnapshot<'a> {
    /// Returns the name of the folder or of the file.
    pub fn name(&self) -> &'a str
        ensures { result.now ≡ compared_name (compared_view self.now) }
    {
        match self {
            ComparedSnapshot::Taken(request) => request.source.name(),
            ComparedSnapshot::Document(name) => name,
        }
    }
}

/// Returns whether a call says how a snapshot is taken.
fn takes_one(call: &CommandCall<'_>, is_entered: bool) -> bool
    ensures { result ≡ takes_one is_entered (call_view call.now) }
{
    is_entered
        || call.text_of("folder").is_some()
        || call.text_of("tar").is_some()
        || call.text_of("at").is_some()
        || call.texts_of("skip").is_some()
}

/// Returns whether a file that is named is standard input.
fn is_input(name: Option<&str>) -> bool
    ensures { result ≡ is_input (option_map (λ s. s.now) name.entry) }
{
    match name {
        Some(name) => name == "-",
        None => false,
    }
}

/// Returns with which snapshot the command `compare` compares a recording, by whether other file
/// systems are entered.
pub fn compared_snapshot<'a>(
    alloc: Global,
    call: &CommandCall<'a>,
    is_entered: bool,
) -> Result<ComparedSnapshot<'a>, FolderFault>
    ensures { Means compared_view result (compared_in is_entered (call_view call.now)) }
{
    let from_file = is_input(call.text_of("tar")) || is_input(call.text_of("snapshot"));
    if from_file && is_input(call.text_of("log")) {
        return Err(FolderFault::Bad(FolderProblem::InputTwice));
    }
    let Some(document) = call.text_of("snapshot") else {
        return Ok(ComparedSnapshot::Taken(snapshot_request(alloc, call, is_entered)?));
    };
    if takes_one(call, is_entered) {
        return Err(FolderFault::Bad(FolderProblem::TakenDocument));
    }
    Ok(ComparedSnapshot::Document(document))
}
