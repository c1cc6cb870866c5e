//! Repairs that are asked for.
ghost use Rattle.std.specs.Prelude.{◌≡◌, IfOk, IfErr, Ok};
ghost use Rattle.casebook_account.specs.Accounts.{IsAccountOf};
ghost use Rattle.casebook_account.specs.Edits.{HasNoText, known_lines, text_edits};
ghost use Rattle.casebook_account.specs.Shown.{HasNoShown, shown, shown_settled};
ghost use Rattle.casebook_request.specs.Views.{repair_view};
ghost use Rattle.casebook_repairs.specs.Repairs.{AreEdits, IsAsked, asked_source};
ghost use Rattle.casebook_view.specs.Lines.{LinesMatch};
ghost use Rattle.casebook_repairs.specs.Stops.{IsUnshownRepair, StopsAsked, StopsEdits};
ghost use Rattle.casebook_repairs.specs.Stops.{StopsNumbers, StopsRepaired};
ghost use Rattle.casebook_repairs.specs.Views.{document_view, inputs_view};

use crate::NoMem;
use crate::accounts::{SeenLines, account_of, account_stop, seen_by, source_by};
use crate::attributes::attributes_by;
use crate::document::Document;
use crate::inputs::Inputs;
use crate::labels::labels_of;
use crate::line_lists::{cancellations, list_given, numbers_of};
use crate::progress::{Progress, Step};
use crate::repairing::{Check, Repaired, repaired_by};
use crate::stop::Stop;
use casebook_about::Labels;
use casebook_account::{Account, SeenAttributes};
use casebook_request::RepairRequest;
use casebook_view::Case;
use retro_keep::{Edit, Recording};
use retro_redo::Repair;
use std::alloc::{AllocGlobal, Global};
use std::thread::Threads;

/// A repair that is asked for, with what it is a repair of, both as they are shown: each line of a
/// case is one line.
#[derive(Drop)]
pub struct AskedRepair {
    /// The recording of the log or of the case.
    pub recording: Recording,
    /// Its repair by the edits, as it is asked for.
    pub repair: Repair,
    /// The edits: the lines of the list are left out, and others are replaced.
    pub edits: Vec<Edit>,
    /// The names and times.
    pub labels: Labels,
    /// Of a case what the recorder says of its lines.
    pub seen: Option<SeenLines>,
    /// Of a case the modes and owners that paths were seen to have, in order.
    pub attributes: Vec<SeenAttributes>,
    /// Whether the log was found to be as its lines run. Of a case that isn't said.
    pub is_recording: bool,
}

impl AskedRepair {
    /// Returns the recording with its repair.
    pub fn case(&self, alloc: Global) -> Result<Case<'_>, NoMem>
        ensures recording { IfOk result (λ case. case.recording ≡ self.now.recording) }
        ensures repair { IfOk result (λ case. case.repair ≡ self.now.repair) }
        ensures edits { IfOk result (λ case. case.edits ≡ self.now.edits.items) }
        ensures source { IfOk result (λ case. case.source ≡ asked_source self.now) }
    {
        let source = source_by(&self.seen);
        Case::of(
            alloc,
            &self.recording,
            &self.repair,
            self.edits.as_slice(),
            source,
        )
    }
}

/// Returns the edits of lines: those that a list names are left out, and then some are replaced.
fn edits_of<'a>(
    alloc: Global,
    account: &Account,
    list: &str,
    replacements: &mut Vec<Edit>,
) -> Result<Vec<Edit>, Stop<'a>>
    ensures ok { IfOk result (λ edits.
        AreEdits list.now replacements.old.items (known_lines account.now) edits.items) }
    ensures err { IfErr result (StopsNumbers (known_lines account.now) list.now) }
{
    let known = account.known_lines(alloc)?;
    let numbers = numbers_of(alloc, known.as_slice(), list)?;
    let mut edits = cancellations(alloc, numbers.as_slice())?;
    edits.append(replacements)?;
    Ok(edits)
}

/// Returns the edits of an account's lines as edits of its recording's.
fn texts_of<'a>(
    alloc: Global,
    account: &Account,
    log: &Document<'a>,
    edits: &[Edit],
) -> Result<Vec<Edit>, Stop<'a>>
    ensures ok { IfOk result (λ texts. text_edits account.now edits.now ≡ Ok texts.items) }
    ensures err { IfErr result
        (StopsEdits (HasNoText account.now edits.now) (document_view log.now)) }
{
    match account.text_edits(alloc, edits) {
        Ok(texts) => Ok(texts),
        Err(fault) => Err(account_stop(log.name, &fault)),
    }
}

/// Returns a recording of an account as it is shown.
fn shown_recording<'a>(
    alloc: Global,
    account: &Account,
    log: &Document<'a>,
    some: Recording,
) -> Result<Recording, Stop<'a>>
    ensures ok { IfOk result (λ found. found ≡ shown account.now some) }
    ensures err { IfErr result (StopsEdits (HasNoShown account.now some) (document_view log.now)) }
{
    match account.shown(alloc, some) {
        Ok(recording) => Ok(recording),
        Err(fault) => Err(account_stop(log.name, &fault)),
    }
}

/// Returns an account with its recording as it is shown.
fn shown_account<'a>(
    alloc: Global,
    account: Account,
    log: &Document<'a>,
) -> Result<Account, Stop<'a>>
    ensures ok { IfOk result (λ found. found.recording ≡ shown account account.recording) }
    ensures machine { IfOk result (λ found. found.machine ≡ account.machine) }
    ensures err { IfErr result
        (StopsEdits (HasNoShown account account.recording) (document_view log.now)) }
{
    match account.into_shown(alloc) {
        Ok(account) => Ok(account),
        Err(fault) => Err(account_stop(log.name, &fault)),
    }
}

/// Returns a repair of an account as it is shown.
fn shown_repair<'a>(
    alloc: Global,
    account: &Account,
    log: &Document<'a>,
    repair: Repair,
) -> Result<Repair, Stop<'a>>
    ensures recording { IfOk result (λ found. found.recording ≡ shown account.now repair.recording) }
    ensures lines { IfOk result (λ found.
        found.lines.items ≡ shown_settled account.now repair.lines.items) }
    ensures tally { IfOk result (λ found. found.tally ≡ repair.tally) }
    ensures err { IfErr result (IsUnshownRepair account.now repair (document_view log.now)) }
{
    let Repair {
        lines,
        tally,
        recording,
    } = repair;
    Ok(Repair {
        lines: account.shown_lines(alloc, lines)?,
        tally,
        recording: shown_recording(alloc, account, log, recording)?,
    })
}

/// What is to be done.
#[derive(Drop)]
struct Task<'a> {
    request: RepairRequest<'a>,
    check: Check,
}

/// Returns the repair that is asked for of the account of some documents. The list of the lines to
/// leave out may be in one of the documents.
fn repaired<'a, R: Threads + Sync + AllocGlobal, P: Progress>(
    rt: &R,
    progress: &P,
    inputs: &Inputs<'a>,
    account: Account,
    task: Task<'a>,
) -> Result<AskedRepair, Stop<'a>>
    requires { IsAccountOf (inputs_view inputs.now).log.bytes account }
    ensures ok { IfOk result (IsAsked (inputs_view inputs.now) (repair_view task.entry.request)) }
    ensures lines { IfOk result (λ asked. LinesMatch asked.recording asked.repair) }
    ensures err { IfErr result
        (StopsRepaired (inputs_view inputs.now) (repair_view task.entry.request) account) }
{
    let alloc = rt.alloc();
    let Task { request, check } = task;
    let labels = labels_of(alloc, &account.machine, &inputs.about)?;
    let list = list_given(alloc, request.cancel, &inputs.list)?;
    let mut replacements = request.replacements;
    let edits = edits_of(alloc, &account, list.as_str(), &mut replacements)?;
    let texts = texts_of(alloc, &account, &inputs.log, edits.as_slice())?;
    let count = account.recording.lines().len();
    progress.begin(Step::Repairing(count));
    let Repaired {
        repair,
        is_recording,
    } = repaired_by(rt, &account, texts.as_slice(), &request.rounds, check)?;
    progress.begin(Step::Showing(count));
    let seen = seen_by(alloc, &account.machine)?;
    let shown = shown_repair(alloc, &account, &inputs.log, repair)?;
    let Account { recording, machine } = shown_account(alloc, account, &inputs.log)?;
    Ok(AskedRepair {
        recording,
        repair: shown,
        edits,
        labels,
        seen,
        attributes: attributes_by(alloc, machine),
        is_recording,
    })
}

/// Returns the repair that is asked for of the log or of the case of some documents, and says, if
/// that is wanted, whether a log is as its lines run.
pub fn asked_repair<'a, R: Threads + Sync + AllocGlobal, P: Progress>(
    rt: &R,
    progress: &P,
    inputs: &Inputs<'a>,
    request: RepairRequest<'a>,
    check: Check,
) -> Result<AskedRepair, Stop<'a>>
    ensures ok { IfOk result (IsAsked (inputs_view inputs.now) (repair_view request.entry)) }
    ensures lines { IfOk result (λ asked. LinesMatch asked.recording asked.repair) }
    ensures err { IfErr result (StopsAsked (inputs_view inputs.now) (repair_view request.entry)) }
{
    progress.begin(Step::Reading(inputs.log.bytes.len()));
    let account = account_of(rt.alloc(), &inputs.log)?;
    repaired(rt, progress, inputs, account, Task { request, check })
}
