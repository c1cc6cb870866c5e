//! What is wrong with a command line.
ghost use Rattle.std.specs.Prelude.{◌≡◌, IsTrue};
ghost use Rattle.std.specs.List.{list_all};
ghost use Rattle.casebook_text.specs.SafeText.{is_printable};
ghost use Rattle.casebook_request.specs.Problems.{problem_words};

use casebook_folder_cli::FolderProblem;
use casebook_recorder_cli::RecorderProblem;

/// What is wrong with a command line.
#[derive(Clone, Copy, Debug, PartialEq, Eq)]
pub enum Problem {
    /// A word isn't UTF-8.
    NotText,
    /// There is no such command or option, an option has no value or is given twice, or there is a
    /// word too many.
    Words,
    /// There is no help on this.
    Topic,
    /// No log is named.
    NoLog,
    /// No case is named.
    NoCase,
    /// Standard input is named as two documents.
    InputTwice,
    /// No list of lines to cancel is given, and no lines to replace.
    NoList,
    /// The value of `--replace` isn't a list of numbers and texts.
    Replace,
    /// The value of `--workers` isn't a number.
    Workers,
    /// The value of `--cuts` isn't a list of numbers.
    Cuts,
    /// The value of `--session` isn't a number.
    Session,
    /// The value of `--from` isn't a number or a time.
    From,
    /// The value of `--to` isn't a number or a time.
    To,
    /// A time is given, but no document with the times of lines.
    NoTimes,
    /// The value of `--reads` isn't a path from the root.
    Reads,
    /// The value of `--writes` isn't a path from the root.
    Writes,
    /// The value of `--touches` isn't a path from the root.
    Touches,
    /// What is named as a file isn't a path from the root.
    Path,
    /// Neither a path nor `--line` is given.
    NoPath,
    /// A path and `--line` are given.
    PathAndLine,
    /// The value of `--line` isn't a number.
    Line,
    /// The value of `--format` isn't a format.
    Format,
    /// The value of `--format` isn't a format in which a repair is shown.
    RepairFormat,
    /// A repair is to be shown for programs, and a part of it to people.
    MixedFormat,
    /// The words of a command about folders are bad.
    Folder(FolderProblem),
    /// The words of the command of the recorder are bad.
    Recorder(RecorderProblem),
}

impl Problem {
    /// Returns what is wrong, in words.
    #[tactic(auto, unfolding(crate::specs::Problems::problem_words))]
    pub fn words(self) -> &'static str
        ensures value { result.now ≡ problem_words self }
        ensures printable { IsTrue (list_all is_printable result.now) }
    {
        match self {
            Problem::NotText => "a word of the command line isn't UTF-8",
            Problem::Words => "these words are no command with its options; see casebook help",
            Problem::Topic => {
                "no help on this, but on lines show page cat patch check snapshot compare restore \
                 script observe import status log lists documents refusals profile"
            }
            Problem::NoLog => "no LOG is given; see casebook help",
            Problem::NoCase => "no CASE is given; see casebook help log",
            Problem::InputTwice => "- is standard input, which can be named once",
            Problem::NoList => "no --cancel LIST is given; see casebook help show",
            Problem::Replace => "--replace: not a list like [[4,\"cat f\"]]",
            Problem::Workers => "--workers: not a number",
            Problem::Cuts => "--cuts: not numbers with commas between them",
            Problem::Session => "--session: not a number",
            Problem::From => "--from: not a number of a line, nor a time such as 2025-05-06 10:30",
            Problem::To => "--to: not a number of a line, nor a time such as 2025-05-06 10:30",
            Problem::NoTimes => "--from and --to: no line has a time; give --about FILE",
            Problem::Reads => "--reads: not a path from the root",
            Problem::Writes => "--writes: not a path from the root",
            Problem::Touches => "--touches: not a path from the root",
            Problem::Path => "PATH: not a path from the root",
            Problem::NoPath => "no PATH and no --line N is given; see casebook help cat",
            Problem::PathAndLine => "PATH and --line N are two answers; give one",
            Problem::Line => "--line: not a number of a line",
            Problem::Format => "--format: not text, tsv or numbers",
            Problem::RepairFormat => "--format: not text or json",
            Problem::MixedFormat => "--format json has no --why, --diff or --line",
            Problem::Folder(FolderProblem::NoFolder) =>
                "no FOLDER and no --tar FILE is given; see casebook help",
            Problem::Folder(FolderProblem::SeveralSources) =>
                "FOLDER and --tar are two sources; give one",
            Problem::Folder(FolderProblem::MountsOfFile) => "--mounts needs a FOLDER",
            Problem::Folder(FolderProblem::TakenDocument) =>
                "--snapshot needs no FOLDER, --tar, --mounts, --at and --skip",
            Problem::Folder(FolderProblem::At) => "--at: not a path from the root",
            Problem::Folder(FolderProblem::Skip) => "--skip: not a path from the root",
            Problem::Folder(FolderProblem::InputTwice) =>
                "- is standard input, which can be named once",
            Problem::Folder(FolderProblem::NoRoot) =>
                "no --root FOLDER is given; see casebook help restore",
            Problem::Folder(FolderProblem::Only) => "--only: not a path from the root",
            Problem::Folder(FolderProblem::NoUndo) =>
                "--apply needs --undo FILE, a file that isn't there yet",
            Problem::Folder(FolderProblem::NoApply) => "--undo needs --apply where a LOG is given",
            Problem::Folder(FolderProblem::Mixed) =>
                "--undo without a LOG has --root and --apply alone",
            Problem::Folder(FolderProblem::NoDocument) =>
                "no DOCUMENT is given; see casebook help script",
            Problem::Folder(FolderProblem::NoSessions) =>
                "no --sessions FILE is given; see casebook help script",
            Problem::Folder(FolderProblem::NoLines) =>
                "no --lines FILE is given; see casebook help script",
            Problem::Recorder(RecorderProblem::NoSpool) => "no SPOOL is given; see casebook help",
            Problem::Recorder(RecorderProblem::NoFolder) =>
                "--start needs a FOLDER after SPOOL; see casebook help observe",
            Problem::Recorder(RecorderProblem::HasFolder) => "FOLDER needs --start",
            Problem::Recorder(RecorderProblem::Folder) => "FOLDER: not a path from the root",
        }
    }
}
