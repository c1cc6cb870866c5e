//! What snapshots are taken of.
ghost use Rattle.std.specs.Prelude.{◌≡◌, option_map};
ghost use Rattle.casebook_folder_cli.specs.Sources.{mounts_of, source_name, source_of};
ghost use Rattle.casebook_folder_cli.specs.Views.{Means, source_view};

use crate::request::{FolderFault, FolderProblem};

/// Whether a snapshot of a folder has what other file systems hold that are mounted in it.
#[derive(Clone, Copy, Debug, PartialEq, Eq)]
pub enum Mounts {
    /// Each is skipped.
    Skipped,
    /// Each is looked at as a part of the folder.
    Entered,
}

/// What a snapshot is taken of.
#[derive(Clone, Copy, Debug, PartialEq, Eq)]
pub enum Source<'a> {
    /// The folder with a name.
    Folder(&'a str, Mounts),
    /// The stream of tar in the file with a name.
    Archive(&'a str),
}

impl<'a> Source<'a> {
    /// Returns the name of the folder or of the file.
    pub fn name(self) -> &'a str
        ensures { result.now ≡ source_name (source_view self.entry) }
    {
        match self {
            Source::Folder(name, _) => name,
            Source::Archive(name) => name,
        }
    }
}

/// Returns how other file systems are taken, by whether they are to be entered.
fn mounts_of(is_entered: bool) -> Mounts
    ensures { result ≡ mounts_of is_entered }
{
    if is_entered {
        Mounts::Entered
    } else {
        Mounts::Skipped
    }
}

/// Returns what a snapshot is taken of: a folder or a stream of tar, but not both, and other file
/// systems only with a folder.
pub(crate) fn source_of<'a>(
    folder: Option<&'a str>,
    archive: Option<&'a str>,
    is_entered: bool,
) -> Result<Source<'a>, FolderFault>
    ensures { Means source_view result (source_of (option_map (λ s. s.now) folder.entry)
        (option_map (λ s. s.now) archive.entry) is_entered) }
{
    match (folder, archive) {
        (None, None) => Err(FolderFault::Bad(FolderProblem::NoFolder)),
        (Some(_), Some(_)) => Err(FolderFault::Bad(FolderProblem::SeveralSources)),
        (Some(folder), None) => Ok(Source::Folder(folder, mounts_of(is_entered))),
        (None, Some(archive)) => {
            if is_entered {
                return Err(FolderFault::Bad(FolderProblem::MountsOfFile));
            }
            Ok(Source::Archive(archive))
        }
    }
}
