//! What the lines of a recording must satisfy.
ghost use Rattle.std.specs.Prelude.{◌≡◌, ◌↔◌, ◌&&◌, ◌∷◌, [], IfOk, IsTrue, map};
ghost use Rattle.std.specs.List.{list_all};
ghost use Rattle.retro_tree.specs.Notes.{after, AllAllowed};
ghost use Rattle.retro_keep.specs.Recording.{AllLinesAllowed, answers_are_of_kind, are_own};
ghost use Rattle.retro_keep.specs.Recording.{is_line_of_kind, is_of_kind, is_own_line, last_state};
ghost use Rattle.retro_keep.specs.Recording.{number_in};
ghost use Rattle.retro_keep.specs.RecordingFault.{numbers_rise};
ghost use Rattle.retro_keep.specs.Script.{rises_from};
ghost use Rattle.retro_keep.specs.inner.Parts.{are_parts};

use crate::noted::Noted;
use crate::numbered::test_lines;
use retro_tree::{Answer, Ask, Change, NoMem, Note, Notes, State};
use std::alloc::Global;

/// Returns whether lines fit a first state and the number `from` at which their recording begins,
/// apart from their changes: the recording begins at 1 or later, the lines' numbers rise and none
/// is below `from`, their sessions exist, their notes name no other session, and their answers are
/// of their queries' kinds.
pub(crate) fn are_parts(first: &State, from: u32, lines: &[(u32, Noted)]) -> bool
    ensures { result ≡ are_parts first.now from lines.now }
{
    from >= 1
        && test_lines(first, lines).is_ok()
        && is_none_before(from, lines)
        && are_own(lines)
        && are_of_kind(lines)
}

/// Returns whether no line has a number below `from`. The first line decides for all lines, if the
/// numbers rise.
pub(crate) fn is_none_before(from: u32, lines: &[(u32, Noted)]) -> bool
    ensures { (rises_from 0 (map number_in lines.now) && result) ≡ numbers_rise from lines.now }
{
    match lines.first() {
        Some(line) => from <= line.0,
        None => true,
    }
}

/// Returns whether each line's notes name no session but the line's.
fn are_own(lines: &[(u32, Noted)]) -> bool
    ensures { result ≡ list_all is_own_line lines.now }
{
    for line in lines {
        if !are_notes_own(line.1.sid, &line.1.notes) {
            return false;
        }
    }
    true
}

/// Returns whether, in each line, each noted answer is of its query's kind.
fn are_of_kind(lines: &[(u32, Noted)]) -> bool
    ensures { result ≡ list_all is_line_of_kind lines.now }
{
    for line in lines {
        if !are_answers_of_kind(&line.1.notes) {
            return false;
        }
    }
    true
}

/// Returns whether notes name no session but this one.
fn are_notes_own(sid: u32, notes: &Notes) -> bool
    ensures { result ≡ are_own sid notes.now }
{
    for note in notes.as_slice() {
        if !is_note_own(sid, note) {
            return false;
        }
    }
    true
}

/// Returns whether a note names no session but this one.
#[tactic(auto, unfolding(retro_local::specs::Trace::named_sessions))]
fn is_note_own(sid: u32, note: &Note) -> bool
    ensures { result ≡ are_own sid (note.now ∷ []) }
{
    match note {
        Note::Asked(Ask::VarOf(named, _) | Ask::CwdOf(named) | Ask::StatusOf(named), _)
        | Note::Made(
            Change::SetVar(named, _, _) | Change::SetCwd(named, _) | Change::SetStatus(named, _),
        ) => *named == sid,
        _ => true,
    }
}

/// Returns whether each noted answer is of its query's kind.
fn are_answers_of_kind(notes: &Notes) -> bool
    ensures { result ≡ answers_are_of_kind notes.now }
{
    for note in notes.as_slice() {
        if let Note::Asked(ask, answer) = note {
            if !is_of_kind(ask, answer) {
                return false;
            }
        }
    }
    true
}

/// Returns whether an answer is of the variant that answers a query.
fn is_of_kind(ask: &Ask, answer: &Answer) -> bool
    ensures { result ≡ is_of_kind ask.now answer.now }
{
    match (ask, answer) {
        (Ask::Kind(_), Answer::Kind(_))
        | (Ask::Bytes(_), Answer::Bytes(_))
        | (Ask::Names(_), Answer::Names(_))
        | (Ask::CanWrite(..), Answer::CanWrite(_))
        | (Ask::User(_), Answer::User(_))
        | (Ask::VarOf(..), Answer::Var(_))
        | (Ask::CwdOf(_), Answer::Cwd(_))
        | (Ask::StatusOf(_), Answer::Status(_)) => true,
        _ => false,
    }
}

/// Makes the changes of lines in a state, in order, up to the first that isn't lawful. Returns
/// whether all are lawful. Each change is tested at the cost of [`State::allows`].
pub(crate) fn make_changes(
    alloc: Global,
    lines: &[(u32, Noted)],
    state: &mut State,
) -> Result<bool, NoMem>
    ensures allowed { IfOk result (λ all. IsTrue all ↔ AllLinesAllowed lines.now state.old) }
    ensures last { IfOk result (λ all. IsTrue all
        → state.new ≡ last_state lines.now state.old) }
{
    for line in lines {
        if !make_changes_of(alloc, &line.1.notes, state)? {
            return Ok(false);
        }
    }
    Ok(true)
}

/// Makes the changes of notes in a state, in order, up to the first that isn't lawful. Returns
/// whether all are lawful.
fn make_changes_of(alloc: Global, notes: &Notes, state: &mut State) -> Result<bool, NoMem>
    ensures allowed { IfOk result (λ all. IsTrue all ↔ AllAllowed notes.now state.old) }
    ensures after { IfOk result (λ all. IsTrue all → state.new ≡ after notes.now state.old) }
{
    for note in notes.as_slice() {
        if let Note::Made(change) = note {
            if !state.allows(alloc, change)? {
                return Ok(false);
            }
            state.apply(alloc, change)?;
        }
    }
    Ok(true)
}
