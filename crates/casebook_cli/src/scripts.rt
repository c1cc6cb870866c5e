//! Scripts of snapshots.
ghost use Rattle.std.specs.Prelude.{◌≡◌, IfOk, IfErr, IfSome};
ghost use Rattle.casebook_folder_cli.specs.Scripting.{parts_view};
ghost use Rattle.casebook_folder_cli.specs.Views.{script_view};
ghost use Rattle.casebook_cli.specs.Answers.{Says};
ghost use Rattle.casebook_cli.specs.Scripts.{AreScriptInputs, IsScriptOf, name_of_table, parts_of};
ghost use Rattle.casebook_cli.specs.Scripts.{table_name};
ghost use Rattle.casebook_cli.specs.Stops.{NamesFault, StopsScript};
ghost use Rattle.casebook_cli.specs.inner.Views.{answer_view, files_view};

use crate::answer::Answer;
use casebook_folder_cli::{
    FileFault, Folders, ScriptFault, ScriptParts, ScriptRequest, script_answer,
};
use casebook_repairs::{Document, Documents, Stop, read_document};
use casebook_script::{Table, TableFault};
use std::alloc::Global;

/// The files of which a script is made.
#[derive(Debug, Drop)]
struct ScriptFiles<'a> {
    /// The document of a snapshot.
    document: Document<'a>,
    /// The table of sessions.
    sessions: Document<'a>,
    /// The table of lines.
    lines: Document<'a>,
}

/// Returns the bytes of the files.
fn parts_of<'b>(files: &'b ScriptFiles<'_>) -> ScriptParts<'b>
    ensures { parts_view result ≡ parts_of (files_view files.now) }
{
    ScriptParts {
        document: files.document.bytes.as_slice(),
        sessions: files.sessions.bytes.as_slice(),
        lines: files.lines.bytes.as_slice(),
    }
}

/// Reads the files of which a script is made.
fn read_files<'a, D: Documents>(
    alloc: Global,
    documents: &D,
    names: ScriptRequest<'a>,
) -> Result<ScriptFiles<'a>, Stop<'a>>
    ensures ok { IfOk result (λ files. IfSome (D.bytes_of documents.now) (λ at.
        AreScriptInputs at (script_view names.entry) (files_view files))) }
    ensures err { IfErr result (λ stop. IfSome (D.bytes_of documents.now) (λ at.
        StopsScript at (script_view names.entry) stop)) }
{
    let document = read_document(alloc, documents, names.document)?;
    let sessions = read_document(alloc, documents, names.sessions)?;
    let lines = read_document(alloc, documents, names.lines)?;
    Ok(ScriptFiles {
        document,
        sessions,
        lines,
    })
}

/// Returns the name of a table.
fn name_of_table<'a>(names: ScriptRequest<'a>, table: Table) -> &'a str
    ensures { result.now ≡ name_of_table (script_view names.entry) table }
{
    match table {
        Table::Sessions => names.sessions,
        Table::Lines => names.lines,
    }
}

/// Returns the name of the table that has a fault.
fn table_name<'a>(names: ScriptRequest<'a>, fault: TableFault) -> &'a str
    ensures { result.now ≡ table_name (script_view names.entry) fault }
{
    match fault {
        TableFault::NotUtf8(table) => name_of_table(names, table),
        TableFault::BadRow { table, .. } => name_of_table(names, table),
        TableFault::NoMem => names.lines,
    }
}

/// Returns why there is no script of the files with some names.
fn script_stop<'a>(names: ScriptRequest<'a>, fault: ScriptFault) -> Stop<'a>
    ensures { NamesFault (script_view names.entry) fault result }
{
    match fault {
        ScriptFault::NoMem => Stop::OutOfMemory,
        ScriptFault::Document(fault) => {
            Stop::BadFile(names.document, FileFault::Document(fault))
        }
        ScriptFault::Table(fault) => {
            Stop::BadFile(table_name(names, fault), FileFault::Table(fault))
        }
    }
}

/// Returns the script of the files that are named.
pub(crate) fn script_text<'a, D: Documents + Folders>(
    alloc: Global,
    documents: &D,
    names: ScriptRequest<'a>,
) -> Result<Answer, Stop<'a>>
    ensures ok { IfOk result (λ answer. IfSome (D.bytes_of documents.now) (λ at.
        IfSome (D.holds documents.now) (λ folders.
        Says (IsScriptOf at (script_view names.entry)) (answer_view answer)))) }
    ensures err { IfErr result (λ stop. IfSome (D.bytes_of documents.now) (λ at.
        IfSome (D.holds documents.now) (λ folders.
        StopsScript at (script_view names.entry) stop))) }
{
    let files = read_files(alloc, documents, names)?;
    let parts = parts_of(&files);
    match script_answer(alloc, &parts) {
        Ok(text) => Ok(Answer { text, is_no: false }),
        Err(fault) => Err(script_stop(names, fault)),
    }
}
