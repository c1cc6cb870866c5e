//! Requests.
use crate::query::Query;
use crate::repair_request::RepairRequest;
use crate::topic::Topic;
use casebook_folder_cli::{
    ComparedSnapshot, RestoreRequest, ScriptRequest, SnapshotRequest, UndoRequest,
};
use casebook_recorder_cli::{ImportRequest, ObserveRequest, StartRequest, StatusRequest};

/// Which recording is compared with which snapshot.
#[derive(Drop)]
pub struct CompareRequest<'a> {
    /// The name of the log.
    pub log: &'a str,
    /// The snapshot, which is taken or read.
    pub snapshot: ComparedSnapshot<'a>,
}

/// Which repair is brought into which folder.
#[derive(Drop)]
pub struct FolderRepair<'a> {
    /// The repair.
    pub repair: RepairRequest<'a>,
    /// The folder, and whether it is changed.
    pub folder: RestoreRequest<'a>,
}

/// What the program is asked to do.
#[derive(Drop)]
pub enum Request<'a> {
    /// Say how the program is used.
    Help(Topic),
    /// Answer a question about documents.
    Ask(Query<'a>),
    /// Take a snapshot of a folder or of a stream.
    Snapshot(SnapshotRequest<'a>),
    /// Compare a recording with a snapshot.
    Compare(CompareRequest<'a>),
    /// Bring a repair into a folder.
    Restore(FolderRepair<'a>),
    /// Take a restore back.
    Undo(UndoRequest<'a>),
    /// Make a script of a snapshot.
    Script(ScriptRequest<'a>),
    /// Make a spool.
    Start(StartRequest<'a>),
    /// Take a record.
    Observe(ObserveRequest<'a>),
    /// Write the case of a spool.
    Import(ImportRequest<'a>),
    /// Say what a spool has.
    Status(StatusRequest<'a>),
}
