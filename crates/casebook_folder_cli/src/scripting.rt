//! Scripts of snapshots and tables.
ghost use Rattle.std.specs.Prelude.{◌≡◌, IfErr, IfOk};
ghost use Rattle.casebook_folder_cli.specs.Scripting.{IsNoScript, IsScript, parts_view};
ghost use Rattle.casebook_folder_cli.specs.Scripting.{script_fault_of_document};
ghost use Rattle.casebook_folder_cli.specs.Scripting.{script_fault_of_table};
ghost use Rattle.casebook_folder_cli.specs.declared.scripting.ScriptFault.TheVariants as faults;

use crate::NoMem;
use casebook_compare::snapshot_tree;
use casebook_script::{TableFault, script_of_tables};
use casebook_snapshot_read::{SnapshotFault, read_snapshot};
use std::alloc::Global;

/// What a script is made of, by the bytes of its files.
#[derive(Clone, Copy, Debug)]
pub struct ScriptParts<'a> {
    /// The document of a snapshot.
    pub document: &'a [u8],
    /// The table of sessions.
    pub sessions: &'a [u8],
    /// The table of lines.
    pub lines: &'a [u8],
}

/// Why there is no script of a snapshot.
#[derive(Clone, Copy, Debug, Drop, PartialEq, Eq)]
pub enum ScriptFault {
    /// Allocation failed.
    NoMem,
    /// The document isn't that of a snapshot.
    Document(SnapshotFault),
    /// A table isn't one.
    Table(TableFault),
}

impl From<NoMem> for ScriptFault {
    ghost from_gives = { λ _ fault. fault ≡ faults.NoMem };

    fn from(_error: NoMem) -> ScriptFault {
        ScriptFault::NoMem
    }
}

impl From<SnapshotFault> for ScriptFault {
    ghost from_gives = { λ fault result. result ≡ script_fault_of_document fault };

    fn from(fault: SnapshotFault) -> ScriptFault {
        match fault {
            SnapshotFault::NoMem => ScriptFault::NoMem,
            other => ScriptFault::Document(other),
        }
    }
}

impl From<TableFault> for ScriptFault {
    ghost from_gives = { λ fault result. result ≡ script_fault_of_table fault };

    fn from(fault: TableFault) -> ScriptFault {
        match fault {
            TableFault::NoMem => ScriptFault::NoMem,
            other => ScriptFault::Table(other),
        }
    }
}

/// Returns the script of the snapshot in a document, with the sessions and the lines of two tables.
/// `retro record` reads it.
///
/// # Errors
///
/// `Document` if the document isn't that of a snapshot, and otherwise `Table` if a table has a
/// fault.
pub fn script_answer(alloc: Global, parts: &ScriptParts<'_>) -> Result<Vec<u8>, ScriptFault>
    ensures ok { IfOk result (λ text. IsScript (parts_view parts.now) text.items) }
    ensures err { IfErr result (IsNoScript (parts_view parts.now)) }
{
    let snapshot = read_snapshot(alloc, parts.document)?.snapshot;
    let state = snapshot_tree(alloc, snapshot.rows)?;
    Ok(script_of_tables(alloc, &state, parts.sessions, parts.lines)?)
}
