//! What is wrong with a file.
ghost use Rattle.std.specs.Prelude.{◌≡◌, ◌++◌, IfOk, IsTrue, decimal};
ghost use Rattle.std.specs.List.{list_all};
ghost use Rattle.casebook_text.specs.SafeText.{is_printable};
ghost use Rattle.casebook_folder_cli.specs.FileFaults.{document_words, fault_line, row_words};
ghost use Rattle.casebook_folder_cli.specs.FileFaults.{stream_words, table_words, tree_words};
ghost use Rattle.casebook_folder_cli.specs.FileFaults.{with_number};

use crate::NoMem;
use casebook_script::{RowFault, TableFault};
use casebook_snapshot_read::{Part, SnapshotFault};
use casebook_tar::TarFault;
use casebook_tar_tree::TarTreeFault;
use casebook_text::SafeLine;
use std::alloc::Global;

/// Why a file holds no snapshot, no stream of which one can be taken, and no table of a script.
#[derive(Clone, Copy, Debug, Drop, PartialEq, Eq)]
pub enum FileFault {
    /// It isn't a stream of tar.
    Stream(TarFault),
    /// The members of the stream aren't those of one tree.
    Tree(TarTreeFault),
    /// It isn't the document of a snapshot.
    Document(SnapshotFault),
    /// It isn't a table of a script.
    Table(TableFault),
}

/// Returns what is wrong with a stream, and the offset that the words end with.
fn stream_words(fault: TarFault) -> (&'static str, usize)
    ensures value { (result.0.now, result.1) ≡ stream_words fault }
    ensures printable { IsTrue (list_all is_printable result.0.now) }
{
    match fault {
        TarFault::Truncated(at) => ("not a tar stream: it ends in what begins at offset ", at),
        TarFault::BadChecksum(at) => ("not a tar stream: no header at offset ", at),
        TarFault::BadNumber(at) => ("not a tar stream: no number at offset ", at),
        TarFault::BadRecord(at) => ("not a tar stream: no record at offset ", at),
        TarFault::HasData(at) => ("a tar member with data that isn't a file at offset ", at),
        TarFault::SparseParts(at) => ("a sparse file of many parts at offset ", at),
        TarFault::BadEnd(at) => ("not a tar stream: no end at offset ", at),
    }
}

/// Returns what is wrong with a member, and how many members are before it.
fn tree_words(fault: TarTreeFault) -> (&'static str, usize)
    ensures value { (result.0.now, result.1) ≡ tree_words fault }
    ensures printable { IsTrue (list_all is_printable result.0.now) }
{
    match fault {
        TarTreeFault::GoesUp(index) => ("a name with a part .. after tar members: ", index),
        TarTreeFault::LargeOwner(index) => ("too large an owner after tar members: ", index),
        TarTreeFault::HoldsMembers(index) => {
            (
                "no directory, but there is something in it, after tar members: ",
                index,
            )
        }
        TarTreeFault::BelowOther(index) => {
            (
                "something in what is no directory after tar members: ",
                index,
            )
        }
    }
}

/// Returns what is wrong with the document of a snapshot, and the row that the words end with, if
/// it is one.
fn document_words(fault: SnapshotFault) -> (&'static str, Option<usize>)
    ensures value { (result.0.now, result.1) ≡ document_words fault }
    ensures printable { IsTrue (list_all is_printable result.0.now) }
{
    match fault {
        SnapshotFault::NoMem => ("out of memory", None),
        SnapshotFault::NotJson => ("not a JSON text", None),
        SnapshotFault::NotASnapshot => (
            "not a snapshot: \"snapshot\" isn't 1, or keys are wrong",
            None,
        ),
        SnapshotFault::BadRow { part, place } => match part {
            Part::Tree => ("tree: not a directory or a file: row ", Some(place)),
            Part::Attributes => ("attributes: not a mode and an owner: row ", Some(place)),
            Part::Skipped => ("skipped: not a path and a reason: row ", Some(place)),
        },
        SnapshotFault::LawlessTree => (
            "tree: a path is there twice, or isn't in a directory",
            None,
        ),
        SnapshotFault::OtherPaths => ("attributes: not those of the folder and its tree", None),
    }
}

/// Returns what is wrong with a row of a table.
fn row_words(why: RowFault) -> &'static str
    ensures value { result.now ≡ row_words why }
    ensures printable { IsTrue (list_all is_printable result.now) }
{
    match why {
        RowFault::Escape => "a backslash without t, n, r or a backslash after it: row ",
        RowFault::Cells => "too few or too many cells: row ",
        RowFault::Number => "no number of a session: row ",
        RowFault::Directory => "no path from the root: row ",
        RowFault::Variable => "no variable as NAME=VALUE: row ",
        RowFault::TooLong => "too long a value: row ",
        RowFault::VariableTwice => "a variable twice: row ",
        RowFault::SessionTwice => "a session for the second time: row ",
        RowFault::UnknownSession => "a session that isn't in the table of sessions: row ",
        RowFault::TooManyLines => "too many lines: row ",
    }
}

/// Returns what is wrong with a table, and the row that the words end with, if it is one.
fn table_words(fault: TableFault) -> (&'static str, Option<usize>)
    ensures value { (result.0.now, result.1) ≡ table_words fault }
    ensures printable { IsTrue (list_all is_printable result.0.now) }
{
    match fault {
        TableFault::NoMem => ("out of memory", None),
        TableFault::NotUtf8(_) => ("not UTF-8", None),
        TableFault::BadRow { row, why, .. } => (row_words(why), Some(row)),
    }
}

/// Returns words and the number that they end with, as a line.
fn numbered(alloc: Global, words: &str, number: usize) -> Result<SafeLine, NoMem>
    requires { IsTrue (list_all is_printable words.now) }
    ensures { IfOk result (λ line. line ≡ words.now ++ decimal number) }
{
    let mut line = SafeLine::new(alloc);
    line.push_ascii(words)?;
    line.push_number(alloc, number as u64)?;
    Ok(line)
}

/// Returns words, and the row that they end with, if there is one, as a line.
fn with_row(alloc: Global, words: &str, row: Option<usize>) -> Result<SafeLine, NoMem>
    requires { IsTrue (list_all is_printable words.now) }
    ensures { IfOk result (λ line. line ≡ with_number words.now row) }
{
    match row {
        Some(row) => numbered(alloc, words, row),
        None => {
            let mut line = SafeLine::new(alloc);
            line.push_ascii(words)?;
            Ok(line)
        }
    }
}

impl FileFault {
    /// Returns what is wrong with the file, in a line.
    #[tactic(auto, unfolding(crate::specs::FileFaults::fault_line))]
    pub fn line(self, alloc: Global) -> Result<SafeLine, NoMem>
        ensures { IfOk result (λ line. line ≡ fault_line self) }
    {
        match self {
            FileFault::Stream(fault) => {
                let (words, at) = stream_words(fault);
                numbered(alloc, words, at)
            }
            FileFault::Tree(fault) => {
                let (words, index) = tree_words(fault);
                numbered(alloc, words, index)
            }
            FileFault::Document(fault) => {
                let (words, row) = document_words(fault);
                with_row(alloc, words, row)
            }
            FileFault::Table(fault) => {
                let (words, row) = table_words(fault);
                with_row(alloc, words, row)
            }
        }
    }
}
