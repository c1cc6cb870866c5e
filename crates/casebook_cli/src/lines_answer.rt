//! Answers to requests for rows of lines.
ghost use Rattle.std.specs.Prelude.{◌≡◌, ◌∷◌, ◌++◌, [], IfOk, IfErr, OnOk, map, option_map};
ghost use Rattle.std.specs.Prelude.{string_bytes};
ghost use Rattle.casebook_about.specs.Rows.{time_view};
ghost use Rattle.casebook_view.specs.Rows.{row_value};
ghost use Rattle.casebook_request.specs.Views.{lines_view};
ghost use Rattle.casebook_cli.specs.Harmless.{IsHarmless};
ghost use Rattle.casebook_repairs.specs.Labels.{seen_by, source_by};
ghost use Rattle.casebook_cli.specs.Lines.{AreLines, HasUser};
ghost use Rattle.casebook_cli.specs.Lines.{sessions_named, user_tests, with_number};
ghost use Rattle.casebook_cli.specs.Tests.{of_sessions, test_view};
ghost use Rattle.casebook_cli.specs.Stops.{StopsLines, StopsUser};
ghost use Rattle.casebook_cli.specs.Typed.{lacks_times};
ghost use Rattle.casebook_repairs.specs.Views.{inputs_view};
ghost use Rattle.casebook_cli.specs.inner.Views.{AreAskedRows};

use crate::NoMem;
use crate::line_tests::tests_of;
use crate::patterns::Patterns;
use crate::rows_text::{rows_text, widest_name};
use crate::typed::typed_rows;
use casebook_about::{Labels, LineTime};
use casebook_account::Account;
use casebook_repairs::{
    Inputs, Knowledge, Progress, Stop, known_of, seen_by, shown_account, source_by,
};
use casebook_request::{Bounds, LinesRequest, Problem};
use casebook_screen::Names;
use casebook_text::SafeLine;
use casebook_view::{LineRow, LineTest, rows};
use retro_keep::Noted;
use std::alloc::Global;

/// Appends a session, if the list doesn't have it.
fn push_session(found: &mut Vec<u32>, session: u32) -> Result<(), NoMem>
    ensures { OnOk result (found.new.items ≡ with_number found.old.items session) }
{
    if !found.contains(&session) {
        found.push(session)?;
    }
    Ok(())
}

/// Returns the sessions of lines that have a name, or that have none and this number, each once.
fn sessions_named(
    alloc: Global,
    labels: &Labels,
    lines: &[(u32, Noted)],
    name: &str,
) -> Result<Vec<u32>, NoMem>
    ensures { IfOk result (λ found. found.items ≡ sessions_named labels.now lines.now name.now) }
{
    let mut found = Vec::new(alloc);
    for line in lines {
        if labels.is_named(alloc, name, line.1.sid)? {
            push_session(&mut found, line.1.sid)?;
        }
    }
    Ok(found)
}

/// Appends the test that a line is of one of some sessions.
fn push_sessions(tests: &mut Vec<LineTest>, sessions: Vec<u32>) -> Result<(), NoMem>
    ensures { OnOk result (map test_view tests.new.items
        ≡ map test_view tests.old.items ++ of_sessions sessions.items ∷ []) }
{
    tests.push(LineTest::Sessions(sessions))?;
    Ok(())
}

/// Appends the test that a line is of a session with a name, if one is given.
fn push_user<'a>(
    alloc: Global,
    tests: &mut Vec<LineTest>,
    labels: &Labels,
    lines: &[(u32, Noted)],
    user: Option<&str>,
) -> Result<(), Stop<'a>>
    ensures ok { OnOk result (map test_view tests.new.items ≡ map test_view tests.old.items
        ++ user_tests labels.now lines.now (option_map (λ s. s.now) user.entry)) }
    ensures known { OnOk result
        (HasUser labels.now lines.now (option_map (λ s. s.now) user.entry)) }
    ensures err { IfErr result
        (StopsUser labels.now lines.now (option_map (λ s. s.now) user.entry)) }
{
    let Some(name) = user else {
        return Ok(());
    };
    let sessions = sessions_named(alloc, labels, lines, name)?;
    if sessions.is_empty() {
        return Err(Stop::NoUser);
    }
    push_sessions(tests, sessions)?;
    Ok(())
}

/// Returns the rows of the lines of an account that are asked for.
fn asked_rows<'r, 'a>(
    alloc: Global,
    account: &'r Account,
    known: &Knowledge,
    patterns: &Patterns,
    request: LinesRequest<'_>,
) -> Result<Vec<LineRow<'r>>, Stop<'a>>
    ensures ok { IfOk result (λ rows. AreAskedRows (lines_view request.entry) known.now.labels
        (map time_view known.now.times.items) account.entry.now.recording
        (source_by (seen_by account.entry.now.machine)) patterns.now
        (map row_value rows.items)) }
    ensures err { IfErr result (StopsUser known.now.labels account.entry.now.recording.lines
        (option_map (λ s. s.now) request.entry.user)) }
{
    let recording = &account.recording;
    let mut tests = tests_of(alloc, request.session, request.bounds, request.paths)?;
    push_user(
        alloc,
        &mut tests,
        &known.labels,
        recording.lines(),
        request.user,
    )?;
    let mut filters = patterns.filters(alloc, tests, request.is_unknown)?;
    let seen = seen_by(alloc, &account.machine)?;
    let found = rows(alloc, recording, source_by(&seen), &mut filters)?;
    Ok(typed_rows(alloc, found, known.times.as_slice(), request.bounds)?)
}

/// Returns whether a bound is a time, and no line has one.
fn lacks_times(bounds: Bounds, times: &[LineTime]) -> bool
    ensures { result ≡ lacks_times bounds (map time_view times.now) }
{
    match times {
        [] => bounds.has_times(),
        [_, ..] => false,
    }
}

/// Tells that none of so many lines is shown.
fn tell_none<P: Progress>(alloc: Global, progress: &P, count: usize) -> Result<(), NoMem> {
    let mut line = SafeLine::new(alloc);
    line.push_ascii("0 of ")?;
    line.push_number(alloc, count as u64)?;
    line.push_ascii(" lines")?;
    progress.remark(&line);
    Ok(())
}

/// Returns the rows of lines that are asked for, as text. If there are none, that is told.
pub(crate) fn lines_text<'a, P: Progress>(
    alloc: Global,
    progress: &P,
    inputs: &Inputs<'a>,
    request: LinesRequest<'a>,
) -> Result<String, Stop<'a>>
    ensures ok { IfOk result (λ text.
        AreLines (inputs_view inputs.now) (lines_view request.entry) (string_bytes text)) }
    ensures harmless { IfOk result (λ text. IsHarmless (string_bytes text)) }
    ensures err { IfErr result (StopsLines (inputs_view inputs.now) (lines_view request.entry)) }
{
    let patterns = Patterns::of(alloc, &request)?;
    let account = shown_account(alloc, &inputs.log)?;
    let known = known_of(alloc, &account.machine, &inputs.about)?;
    if lacks_times(request.bounds, known.times.as_slice()) {
        return Err(Stop::BadWords(Problem::NoTimes));
    }
    let format = request.format;
    let found = asked_rows(alloc, &account, &known, &patterns, request)?;
    if found.is_empty() {
        tell_none(alloc, progress, account.recording.lines().len())?;
    }
    let names = Names {
        labels: &known.labels,
        width: widest_name(alloc, &known.labels, account.recording.lines())?,
    };
    Ok(rows_text(alloc, found.as_slice(), names, format)?)
}
