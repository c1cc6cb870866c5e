//! Whether documents are recordings, cases or scripts.
ghost use Rattle.std.specs.Prelude.{◌≡◌, ◌∷◌, [], true, IfOk, IsTrue, codes, string_bytes};
ghost use Rattle.std.specs.List.{list_all};
ghost use Rattle.casebook_text.specs.SafeLine.{text_of_lines};
ghost use Rattle.casebook_text.specs.SafeText.{is_printable};
ghost use Rattle.retro_keep.specs.Recording.{noted_at};
ghost use Rattle.retro_log.specs.Document.{script_in};
ghost use Rattle.casebook_account.specs.Accounts.{IsNoAccount};
ghost use Rattle.casebook_cli.specs.Checks.{AreUnlike, IsChecked, IsCheckedAccount, IsCheckedAs};
ghost use Rattle.casebook_cli.specs.Checks.{IsCheckedScript, IsRefusedAs, IsUnlikeText, SaysCase};
ghost use Rattle.casebook_recording.specs.Refusals.{fault_words};
ghost use Rattle.casebook_cli.specs.Checks.{SaysNoCase, SaysOf, SaysWhere, counted_text};
ghost use Rattle.casebook_cli.specs.Checks.{is_for_script, refused_line};
ghost use Rattle.casebook_check.specs.Place.{IsPlaceInLog, IsPlaceInScript};
ghost use Rattle.casebook_cli.specs.Harmless.{IsHarmless};
ghost use Rattle.casebook_repairs.specs.Views.{document_view};

use crate::NoMem;
use crate::answer::Answer;
use crate::messages::{about, push_refusal};
use crate::plain::{plain_line, plain_lines};
use casebook_about::Labels;
use casebook_account::{Account, AccountFault, Machine, read_account};
use casebook_check::{Place, place_in_log, place_in_script, push_place, unlike_lines};
use casebook_recording::RecordingFault;
use casebook_repairs::Document;
use casebook_text::SafeLine;
use retro_keep::{Recording, Unlike, first_unlike};
use retro_log::{LogFault, Refusal, read_script};
use serde_json::Value;
use std::alloc::Global;

/// Returns that a document is refused, after words of what it isn't, and where.
#[tactic(auto, unfolding(crate::specs::Checks::refused_line))]
fn refused(
    alloc: Global,
    name: &str,
    words: &str,
    refusal: Refusal,
    place: &Place,
) -> Result<Answer, NoMem>
    requires { IsTrue (list_all is_printable words.now) }
    ensures text { IfOk result (λ answer. answer.text.items
        ≡ text_of_lines (refused_line name.now words.now refusal place.now ∷ [])) }
    ensures no { IfOk result (λ answer. answer.is_no ≡ true) }
    ensures harmless { IfOk result (λ answer. IsHarmless answer.text.items) }
{
    let mut line = about(alloc, name, words)?;
    push_refusal(alloc, &mut line, refusal)?;
    line.push_ascii(": ")?;
    push_place(alloc, &mut line, place)?;
    Ok(Answer {
        text: plain_line(alloc, line)?.into_bytes(),
        is_no: true,
    })
}

/// Returns a text about a document, with a number of lines in it.
fn counted_text(alloc: Global, name: &str, words: &str, count: usize) -> Result<String, NoMem>
    requires { IsTrue (list_all is_printable words.now) }
    ensures value { IfOk result (λ text.
        string_bytes text ≡ counted_text name.now words.now count) }
    ensures harmless { IfOk result (λ text. IsHarmless (string_bytes text)) }
{
    let mut line = about(alloc, name, words)?;
    line.push_number(alloc, count as u64)?;
    line.push_ascii(" lines")?;
    plain_line(alloc, line)
}

/// Returns how a line of a log isn't as noted, or no lines if the log has no such line.
fn lines_of_unlike(
    alloc: Global,
    recording: &Recording,
    unlike: &Unlike,
) -> Result<Vec<SafeLine>, NoMem>
    ensures { IfOk result (λ lines.
        AreUnlike (noted_at unlike.now.number recording.now.lines) unlike.now lines.items) }
{
    match recording.run_of(unlike.number) {
        Some(noted) => unlike_lines(alloc, &Labels::none(alloc), noted, unlike),
        None => Ok(Vec::new(alloc)),
    }
}

/// Returns which line of a log isn't as noted, and how.
fn unlike_text(
    alloc: Global,
    name: &str,
    recording: &Recording,
    unlike: &Unlike,
) -> Result<String, NoMem>
    ensures unlike { IfOk result (λ text.
        IsUnlikeText name.now recording.now unlike.now (string_bytes text)) }
    ensures harmless { IfOk result (λ text. IsHarmless (string_bytes text)) }
{
    let mut lines = Vec::new(alloc);
    lines.push(about(
        alloc,
        name,
        "not as its lines run. The first that isn't as noted:",
    )?)?;
    lines.append(&mut lines_of_unlike(alloc, recording, unlike)?)?;
    plain_lines(alloc, lines.as_slice())
}

/// Returns whether a log is a recording of its lines.
fn checked_log(alloc: Global, name: &str, recording: &Recording) -> Result<Answer, NoMem>
    ensures checked { IfOk result (λ answer.
        SaysOf answer.is_no name.now recording.now answer.text.items) }
    ensures harmless { IfOk result (λ answer. IsHarmless answer.text.items) }
{
    match first_unlike(alloc, recording)? {
        None => {
            let count = recording.lines().len();
            Ok(Answer::of(counted_text(alloc, name, "a recording of its ", count)?))
        }
        Some(unlike) => Ok(Answer {
            text: unlike_text(alloc, name, recording, &unlike)?.into_bytes(),
            is_no: true,
        }),
    }
}

/// Returns that a document isn't a log, and where.
fn refused_log(alloc: Global, document: &Document<'_>, refusal: Refusal) -> Result<Answer, NoMem>
    ensures place { IfOk result (λ answer.
        SaysWhere (IsPlaceInLog (document_view document.now).bytes refusal)
        (document_view document.now).name (codes "not a log: ") refusal answer.is_no
        answer.text.items) }
    ensures harmless { IfOk result (λ answer. IsHarmless answer.text.items) }
{
    let place = place_in_log(alloc, document.bytes.as_slice(), refusal)?;
    refused(alloc, document.name, "not a log: ", refusal, &place)
}

/// Returns that a document isn't a script, and where.
fn refused_script(alloc: Global, document: &Document<'_>, refusal: Refusal) -> Result<Answer, NoMem>
    ensures place { IfOk result (λ answer.
        SaysWhere (IsPlaceInScript (document_view document.now).bytes refusal)
        (document_view document.now).name (codes "not a script: ") refusal answer.is_no
        answer.text.items) }
    ensures harmless { IfOk result (λ answer. IsHarmless answer.text.items) }
{
    let place = place_in_script(alloc, document.bytes.as_slice(), refusal)?;
    refused(alloc, document.name, "not a script: ", refusal, &place)
}

/// Returns that a document is a case.
fn checked_case(alloc: Global, name: &str, machine: &Machine) -> Result<Answer, NoMem>
    ensures checked { IfOk result (λ answer.
        SaysCase name.now machine.now answer.is_no answer.text.items) }
    ensures harmless { IfOk result (λ answer. IsHarmless answer.text.items) }
{
    let observed = machine.observed(alloc)?.len();
    let mut line = about(alloc, name, "a case of ")?;
    line.push_number(alloc, machine.lines.len() as u64)?;
    line.push_ascii(" lines, ")?;
    line.push_number(alloc, observed as u64)?;
    line.push_ascii(" of them as they were observed")?;
    Ok(Answer::of(plain_line(alloc, line)?))
}

/// Returns why a document that says that it is a case isn't one, or which line left what can't be
/// there.
fn refused_case(alloc: Global, name: &str, fault: &RecordingFault) -> Result<Answer, NoMem>
    ensures checked { IfOk result (λ answer.
        SaysNoCase name.now (fault_words fault.now) answer.is_no answer.text.items) }
    ensures harmless { IfOk result (λ answer. IsHarmless answer.text.items) }
{
    let Some(words) = fault.line(alloc)? else {
        return Err(NoMem);
    };
    let mut line = about(alloc, name, "not a case: ")?;
    line.push_line(&words)?;
    Ok(Answer {
        text: plain_line(alloc, line)?.into_bytes(),
        is_no: true,
    })
}

/// Returns whether a log is a recording of its lines, or that a document is a case.
fn checked_account(alloc: Global, name: &str, account: &Account) -> Result<Answer, NoMem>
    ensures checked { IfOk result (λ answer.
        IsCheckedAs name.now account.now account.now.machine answer.is_no answer.text.items) }
    ensures harmless { IfOk result (λ answer. IsHarmless answer.text.items) }
{
    match &account.machine {
        Some(machine) => checked_case(alloc, name, machine),
        None => checked_log(alloc, name, &account.recording),
    }
}

/// Returns why a document has no account.
fn refused_account(
    alloc: Global,
    document: &Document<'_>,
    fault: &AccountFault,
) -> Result<Answer, NoMem>
    requires { IsNoAccount (document_view document.now).bytes fault.now }
    ensures checked { IfOk result (λ answer.
        IsRefusedAs (document_view document.now) fault.now answer.is_no answer.text.items) }
    ensures harmless { IfOk result (λ answer. IsHarmless answer.text.items) }
{
    match fault {
        AccountFault::NoMem => Err(NoMem),
        AccountFault::Log(refusal) => refused_log(alloc, document, *refusal),
        AccountFault::Case(fault) => refused_case(alloc, document.name, fault),
        AccountFault::NoLine(_) | AccountFault::Unshown => unreachable!(),
    }
}

/// Returns whether a document is a log and a recording of its lines, or a case.
fn log_answer(alloc: Global, document: &Document<'_>) -> Result<Answer, NoMem>
    ensures checked { IfOk result (λ answer.
        IsCheckedAccount (document_view document.now) answer.is_no answer.text.items) }
    ensures harmless { IfOk result (λ answer. IsHarmless answer.text.items) }
{
    match read_account(alloc, document.bytes.as_slice()) {
        Ok(account) => checked_account(alloc, document.name, &account),
        Err(fault) => refused_account(alloc, document, &fault),
    }
}

/// Returns whether a document is a script.
fn script_answer(alloc: Global, document: &Document<'_>) -> Result<Answer, NoMem>
    ensures checked { IfOk result (λ answer. IsCheckedScript (document_view document.now)
        (script_in (document_view document.now).bytes) answer.is_no answer.text.items) }
    ensures harmless { IfOk result (λ answer. IsHarmless answer.text.items) }
{
    match read_script(alloc, document.bytes.as_slice()) {
        Ok(script) => {
            let count = script.lines().len();
            Ok(Answer::of(counted_text(alloc, document.name, "a script of ", count)?))
        }
        Err(LogFault::NoMem) => Err(NoMem),
        Err(LogFault::Refused(refusal)) => refused_script(alloc, document, refusal),
    }
}

/// Returns whether bytes are a JSON value with the key `script`, which scripts have and logs don't.
fn is_for_script(alloc: Global, bytes: &[u8]) -> Result<bool, NoMem>
    ensures { IfOk result (λ yes. yes ≡ is_for_script bytes.now) }
{
    let Ok(text) = std::str::from_utf8(bytes) else {
        return Ok(false);
    };
    match Value::from_str(alloc, text) {
        Ok(value) => Ok(value.get("script").is_some()),
        Err(error) if error.is_memory() => Err(NoMem),
        Err(_) => Ok(false),
    }
}

/// Returns whether a document is a recording of its lines, a case, or a script.
pub(crate) fn check_answer(alloc: Global, document: &Document<'_>) -> Result<Answer, NoMem>
    ensures checked { IfOk result (λ answer. IsChecked (document_view document.now) answer.is_no
        answer.text.items) }
    ensures harmless { IfOk result (λ answer. IsHarmless answer.text.items) }
{
    if is_for_script(alloc, document.bytes.as_slice())? {
        script_answer(alloc, document)
    } else {
        log_answer(alloc, document)
    }
}
