//! Reasons why operations on files fail.
ghost use Rattle.std.specs.Prelude.{◌≡◌, ◌++◌, OnOk, OnErr};
ghost use Rattle.retro_utils.specs.Reasons.{fault_text, no_directory, reason_text, refusal};

use retro_tree::{Bytes, Kind, NoMem, Permit};

/// The reason why an operation on a path fails.
#[derive(Drop, Clone, Copy, Debug, PartialEq, Eq)]
pub enum Reason {
    /// The file or its directory is missing.
    NoSuchFile,
    /// A file is where a directory is needed.
    NotDirectory,
    /// A directory is where a file is needed.
    IsDirectory,
    /// The file would be over the limit.
    TooLarge,
    /// A name is over the limit.
    NameTooLong,
    /// A directory should be created at a path that isn't missing.
    FileExists,
    /// The path is one that is never removed or replaced.
    NotPermitted,
    /// The source is its own target.
    SameFile,
    /// The target is below the source.
    InvalidArgument,
    /// The directory that would be replaced has children.
    NotEmpty,
}

impl Reason {
    /// Returns the text at the end of a diagnostic.
    fn text(self) -> &'static str
        ensures { result.now ≡ reason_text self }
    {
        match self {
            Reason::NoSuchFile => "No such file or directory",
            Reason::NotDirectory => "Not a directory",
            Reason::IsDirectory => "Is a directory",
            Reason::TooLarge => "File too large",
            Reason::NameTooLong => "File name too long",
            Reason::FileExists => "File exists",
            Reason::NotPermitted => "Operation not permitted",
            Reason::SameFile => "same file",
            Reason::InvalidArgument => "Invalid argument",
            Reason::NotEmpty => "Directory not empty",
        }
    }

    /// Appends the diagnostic `SPEAKER: WORD: REASON` and a newline.
    #[tactic(auto, unfolding(crate::specs::Reasons::fault_text))]
    pub fn push_fault(self, text: &mut Bytes, speaker: &str, word: &str) -> Result<(), NoMem>
        ensures { OnOk result (text.new ≡ text.old ++ fault_text speaker.now word.now self) }
    {
        text.extend(speaker.as_bytes())?;
        text.extend(b": ")?;
        text.extend(word.as_bytes())?;
        text.extend(b": ")?;
        text.extend(self.text().as_bytes())?;
        text.extend(b"\n")
    }
}

/// Returns the reason why a write isn't permitted, or `None` if it is.
pub(crate) fn refusal(permit: Permit) -> Option<Reason>
    ensures { result ≡ refusal permit }
{
    match permit {
        Permit::Yes => None,
        Permit::NoParent => Some(Reason::NoSuchFile),
        Permit::NotDir => Some(Reason::NotDirectory),
        Permit::IsDir => Some(Reason::IsDirectory),
        Permit::TooLarge => Some(Reason::TooLarge),
    }
}

/// Returns the reason why a node of the given kind can't be used as a directory, or `None` if it
/// can.
pub(crate) fn no_directory(kind: Kind) -> Option<Reason>
    ensures { result ≡ no_directory kind }
{
    match kind {
        Kind::Missing => Some(Reason::NoSuchFile),
        Kind::Dir => None,
        Kind::File => Some(Reason::NotDirectory),
    }
}
