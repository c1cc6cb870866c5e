//! What a spool says.
ghost use Rattle.std.specs.Prelude.{◌≡◌, ◌<◌, ℕ, List, Err, IfOk, None, OnOk, Some, length, map};
ghost use Rattle.std.specs.FinMap as finmap;
ghost use Rattle.casebook_record.specs.declared.record.Record.{Record as RecordValue};
ghost use Rattle.casebook_spool.specs.After.{after_notes};
ghost use Rattle.casebook_typed.specs.Lines.{active_in, lines_after, records_of};
ghost use Rattle.casebook_typed.specs.Observations.{observations};
ghost use Rattle.casebook_typed.specs.Missing.{missing_in};
ghost use Rattle.casebook_typed.specs.Seeing.{observed, said};
ghost use Rattle.casebook_typed.specs.Sessions.{session_in, sessions_of, steps_of};
ghost use Rattle.casebook_typed.specs.Spans.{contradiction};
ghost use Rattle.casebook_typed.specs.Values.{line_value, session_value};
ghost use Rattle.casebook_typed.specs.inner.FirstRecords.{AreFirsts};
ghost use Rattle.casebook_typed.specs.inner.Lists.{list_at};
ghost use Rattle.casebook_typed.specs.inner.Places.{AreNames, names_in, number_at};
ghost use Rattle.casebook_typed.specs.declared.typed_error.TypedError.TheVariants as errors;

use crate::NoMem;
use crate::active::active;
use crate::first_records::FirstRecords;
use crate::key::Key;
use crate::line::TypedLine;
use crate::marks::Marks;
use crate::missing::{LineCounts, missing};
use crate::moment::Moment;
use crate::names::Names;
use crate::observation::{Observation, observations};
use crate::seen::seen_by;
use crate::span::{Span, spans};
use crate::typed_error::TypedError;
use casebook_record::{Record, SessionName, Start};
use casebook_spool::{Lines, Listing, after_items, after_notes};
use casebook_watch::Sights;
use std::alloc::Global;

/// A session.
#[derive(Drop)]
pub struct Session<'a> {
    /// Its name.
    pub name: &'a SessionName,
    /// Its first record. Each session of a spool has one.
    pub first: Option<&'a Record>,
    /// How it started, if a record says so.
    pub start: Option<&'a Start>,
    /// The place of the session that started it, counted from 1, or 0.
    pub parent: usize,
    /// How many of its lines have no record, since none was taken when they began or ended.
    pub missing: usize,
}

/// The sessions and the lines of a spool.
#[derive(Drop)]
pub struct Typed<'a> {
    /// The sessions, in the order in which they first appear in records.
    pub sessions: Vec<Session<'a>>,
    /// The lines, in the order of their ends.
    pub lines: Vec<TypedLine<'a>>,
}

/// Returns a session.
fn session_of<'a>(
    alloc: Global,
    names: &Names<'a>,
    firsts: &FirstRecords<'a>,
    missing: &LineCounts,
    name: &'a SessionName,
) -> Result<Session<'a>, NoMem>
    requires { AreNames names.now }
    ensures { IfOk result (λ session. (records : List RecordValue)
        → AreFirsts firsts.now records
        → ((s : ℕ) → number_at missing.now s ≡ missing_in (steps_of records) s)
        → session_value session ≡ session_in (names_in names.now) records name.now) }
{
    let key = Key::of(alloc, name)?;
    let start = firsts.start(&key);
    let parent = names.parent(alloc, start)?;
    let place = names.places.at(&key);
    Ok(Session {
        name,
        first: firsts.record(&key),
        start,
        parent,
        missing: missing.at(place),
    })
}

/// Returns the sessions. Takes a few look-ups for each record and each session.
fn sessions<'a>(
    alloc: Global,
    names: &Names<'a>,
    observations: &[Observation<'a>],
    missing: &LineCounts,
) -> Result<Vec<Session<'a>>, NoMem>
    requires names { AreNames names.now }
    requires missing { (s : ℕ) → number_at missing.now s
        ≡ missing_in (steps_of (map said observations.now)) s }
    ensures { IfOk result (λ sessions. map session_value sessions.items
        ≡ map (session_in (names_in names.now) (map said observations.now)) (names_in names.now)) }
{
    let firsts = FirstRecords::of(alloc, observations)?;
    let mut sessions = Vec::new(alloc);
    for name in &names.all {
        sessions.push(session_of(alloc, names, &firsts, missing, *name)?)?;
    }
    Ok(sessions)
}

/// Returns the lines of observations, by the sights before them and the lines that are active.
fn lines_after<'a>(
    alloc: Global,
    first: Sights,
    observations: &[Observation<'a>],
    active: &[Vec<Span>],
) -> Result<Vec<TypedLine<'a>>, NoMem>
    requires each { length active.now ≡ length observations.now }
    requires active { (at : ℕ) → at < length observations.now
        → list_at active.now at ≡ active_in (map observed observations.now) at }
    ensures { IfOk result (λ lines. map line_value lines.items
        ≡ lines_after first (map observed observations.now)) }
{
    let mut sights = first;
    let mut lines = Vec::new(alloc);
    for (at, observation) in observations.iter().enumerate() {
        let seen = seen_by(alloc, &sights, observation.notes)?;
        let moment = Moment {
            observations,
            at,
            record: observation.record,
            active: active[at].as_slice(),
        };
        moment.push_lines(alloc, &mut lines, seen)?;
        sights = after_items(sights, observation.notes)?;
    }
    Ok(lines)
}

/// Returns the sessions and the lines that a spool says, by its first look and its file `lines`.
///
/// # Errors
///
/// Returns `TypedError::Contradiction` if a record begins a line that an earlier one begins or
/// ends, or ends a line that an earlier one ends.
pub fn typed_lines<'a>(
    alloc: Global,
    first: &Listing,
    lines: &'a Lines,
) -> Result<Typed<'a>, TypedError>
    ensures ok { OnOk result
        (contradiction (steps_of (records_of (observations lines.now.said))) ≡ None) }
    ensures contradiction { (at : ℕ) → result ≡ Err (errors.Contradiction at)
        → contradiction (steps_of (records_of (observations lines.now.said))) ≡ Some at }
    ensures sessions { IfOk result (λ typed. map session_value typed.sessions.items
        ≡ sessions_of (records_of (observations lines.now.said))) }
    ensures lines { IfOk result (λ typed. map line_value typed.lines.items
        ≡ lines_after (after_notes finmap.empty first.now.said) (observations lines.now.said)) }
{
    let observations = observations(alloc, lines.items())?;
    let names = Names::of(alloc, observations.as_slice())?;
    let steps = names.steps(alloc, observations.as_slice())?;
    let marks = Marks::of(alloc, steps.as_slice())?;
    let spans = spans(alloc, &marks, steps.as_slice())?;
    let active = active(alloc, steps.as_slice(), spans.as_slice())?;
    let missing = missing(alloc, steps.as_slice(), spans.as_slice())?;
    let sessions = sessions(alloc, &names, observations.as_slice(), &missing)?;
    let sights = after_notes(Sights::new(alloc), first.notes())?;
    let lines = lines_after(alloc, sights, observations.as_slice(), active.as_slice())?;
    Ok(Typed { sessions, lines })
}
