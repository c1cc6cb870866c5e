//! What a spool has.
ghost use Rattle.std.specs.Prelude.{◌≡◌, IfErr, IfOk, IfSome, map, option_map};
ghost use Rattle.casebook_host.specs.LoginViews.{login_value};
ghost use Rattle.casebook_recorder_cli.specs.Views.{status_view};
ghost use Rattle.casebook_status.specs.Status.{IsStatusIn};
ghost use Rattle.casebook_text.specs.SafeLine.{text_of_lines};
ghost use Rattle.casebook_cli.specs.Answers.{AnswersStatus};
ghost use Rattle.casebook_cli.specs.Harmless.{IsHarmless};
ghost use Rattle.casebook_cli.specs.Status.{host_of, logins_by, mounts_name, unseen_by};
ghost use Rattle.casebook_cli.specs.Stops.{StopsStatus, StopsTold};
ghost use Rattle.casebook_cli.specs.inner.Status.{IsKeptIn, tables_view};
ghost use Rattle.casebook_repairs.specs.Views.{document_view};
ghost use Rattle.casebook_cli.specs.inner.Views.{answer_view};

use crate::NoMem;
use crate::answer::Answer;
use crate::plain::plain_lines;
use crate::recorder::recorder_stop;
use casebook_host::{Login, logins, unseen};
use casebook_recorder_cli::{RecorderFault, Spools, StatusRequest, import_in};
use casebook_repairs::{Document, Documents, ReadFault, Stop, case_stop, read_if_named};
use casebook_status::{Host, Status, spool_status};
use retro_path::Path;
use std::alloc::Global;

/// Where Linux says what is mounted where, and how.
const MOUNTS: &str = "/proc/self/mounts";

/// Returns what the machine says is mounted where, if it says that.
#[tactic(auto, unfolding(crate::specs::Status::mounts_name))]
fn mounts<D: Documents>(alloc: Global, documents: &D) -> Result<Option<Vec<u8>>, NoMem>
    ensures { IfOk result (λ table. IfSome (D.bytes_of documents.now) (λ at.
        option_map (λ bytes. bytes.items) table ≡ at mounts_name)) }
{
    match documents.read(alloc, MOUNTS) {
        Ok(table) => Ok(Some(table)),
        Err(ReadFault::NoMem) => Err(NoMem),
        Err(ReadFault::Unreadable(_)) => Ok(None),
    }
}

/// Returns in which folders it isn't seen what lines only read, by what is mounted where.
fn unseen_by<'a>(
    alloc: Global,
    table: &Option<Vec<u8>>,
    folders: &'a [Path],
) -> Result<Option<Vec<&'a Path>>, NoMem>
    ensures { IfOk result (λ found. option_map (λ paths. map (λ p. p.now) paths.items) found
        ≡ unseen_by (option_map (λ bytes. bytes.items) table.now) folders.entry.now) }
{
    match table {
        Some(table) => Ok(Some(unseen(alloc, table.as_slice(), folders)?)),
        None => Ok(None),
    }
}

/// Returns who is logged in, by a list of them, if one is given.
fn logins_by<'a>(
    alloc: Global,
    who: &'a Option<Document<'_>>,
) -> Result<Option<Vec<Login<'a>>>, NoMem>
    ensures { IfOk result (λ found. option_map (λ logins. map login_value logins.items) found
        ≡ logins_by (option_map document_view who.entry.now)) }
{
    match who {
        Some(who) => Ok(Some(logins(alloc, who.bytes.as_slice())?)),
        None => Ok(None),
    }
}

/// The folders that are watched, and what a machine says of itself.
#[derive(Drop)]
struct MachineTables<'a> {
    /// The folders.
    folders: &'a [Path],
    /// What is mounted where.
    mounts: Option<Vec<u8>>,
    /// Who is logged in.
    who: Option<Document<'a>>,
}

/// Returns what a spool has that has a case, by the document of this.
fn status_by<'a>(
    alloc: Global,
    name: &'a str,
    text: &[u8],
    tables: &MachineTables<'_>,
) -> Result<Status, Stop<'a>>
    ensures ok { IfOk result (IsStatusIn text.now (host_of (tables_view tables.now))) }
    ensures err { IfErr result (StopsTold name.entry.now text.now) }
{
    let unseen = unseen_by(alloc, &tables.mounts, tables.folders)?;
    let logins = logins_by(alloc, &tables.who)?;
    let host = Host {
        folders: tables.folders,
        unseen,
        logins,
    };
    match spool_status(alloc, text, &host) {
        Ok(status) => Ok(status),
        Err(fault) => Err(case_stop(name, &fault)),
    }
}

/// Returns what a status says, as an answer.
fn shown(alloc: Global, status: &Status) -> Result<Answer, NoMem>
    ensures text { IfOk result (λ answer.
        answer.text.items ≡ text_of_lines status.now.rows.items) }
    ensures no { IfOk result (λ answer. answer.is_no ≡ status.now.lacks) }
    ensures harmless { IfOk result (λ answer. IsHarmless answer.text.items) }
{
    Ok(Answer {
        text: plain_lines(alloc, status.rows.as_slice())?.into_bytes(),
        is_no: status.lacks,
    })
}

/// What a spool has: the document of its case, and the folders that it watches.
#[derive(Drop)]
struct KeptSpool {
    /// The document.
    text: Vec<u8>,
    /// The folders.
    folders: Vec<Path>,
}

/// Returns what the spool with a name has.
fn kept_in<D: Spools>(alloc: Global, spools: &D, name: &str) -> Result<KeptSpool, RecorderFault>
    ensures { IfOk result (λ kept. IsKeptIn (D.spools spools.now) name.now kept) }
{
    let text = import_in(alloc, spools, name)?;
    let folders = spools.folders_of(alloc, name)?;
    Ok(KeptSpool { text, folders })
}

/// Returns what the spool has that is asked about, and whether something is missing.
pub(crate) fn status_text<'a, D: Documents + Spools>(
    alloc: Global,
    documents: &D,
    request: StatusRequest<'a>,
) -> Result<Answer, Stop<'a>>
    ensures ok { IfOk result (λ answer. IfSome (D.bytes_of documents.now) (λ at.
        AnswersStatus at (D.spools documents.now) (status_view request.entry) (answer_view answer))) }
    ensures err { IfErr result (λ stop. IfSome (D.bytes_of documents.now) (λ at.
        StopsStatus at (D.spools documents.now) (status_view request.entry) stop)) }
{
    let kept = match kept_in(alloc, documents, request.spool) {
        Ok(kept) => kept,
        Err(fault) => return Err(recorder_stop(request.spool, fault)),
    };
    let who = read_if_named(alloc, documents, request.who)?;
    let mounts = mounts(alloc, documents)?;
    let tables = MachineTables {
        folders: kept.folders.as_slice(),
        mounts,
        who,
    };
    let status = status_by(alloc, request.spool, kept.text.as_slice(), &tables)?;
    Ok(shown(alloc, &status)?)
}
