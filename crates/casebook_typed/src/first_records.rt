//! The first records of sessions.
ghost use Rattle.std.specs.Prelude.{◌≡◌, ℕ, List, IfOk, OnOk, map, option_map};
ghost use Rattle.std.specs.Option.{option_or};
ghost use Rattle.casebook_record.specs.declared.record.Record.{Record as RecordValue};
ghost use Rattle.casebook_typed.specs.Seeing.{said};
ghost use Rattle.casebook_typed.specs.Sessions.{first_record, first_start, start_if};
ghost use Rattle.casebook_typed.specs.inner.FirstRecords.{AreFirsts, named, value_if};

use crate::NoMem;
use crate::key::Key;
use crate::observation::Observation;
use casebook_record::{Event, Record, SessionName, Start};
use std::alloc::Global;
use std::collections::BTreeMap;

/// Of each session the first record, and the first that says how it started.
#[derive(Drop)]
pub(crate) struct FirstRecords<'a> {
    records: BTreeMap<Key, &'a Record>,
    starts: BTreeMap<Key, &'a Start>,
}

/// Adds what a record says of a session, unless an earlier one said so.
fn add<'a, T>(
    alloc: Global,
    known: &mut BTreeMap<Key, &'a T>,
    name: &SessionName,
    value: &'a T,
) -> Result<(), NoMem>
    ensures { OnOk result ((q : List ℕ) → named q known.new
        ≡ option_or (named q known.old) (value_if q name.now value.entry.now)) }
{
    let key = Key::of(alloc, name)?;
    if !known.contains_key(&key) {
        known.insert(key, value)?;
    }
    Ok(())
}

/// Adds how a session started, if a record says so and no earlier one did.
fn add_start<'a>(
    alloc: Global,
    starts: &mut BTreeMap<Key, &'a Start>,
    seen: &'a Record,
) -> Result<(), NoMem>
    ensures { OnOk result ((q : List ℕ) → named q starts.new
        ≡ option_or (named q starts.old)
        (start_if q seen.entry.now.session seen.entry.now.event)) }
{
    match &seen.event {
        Event::Start(start) => add(alloc, starts, &seen.session, start),
        Event::Begin(_) => Ok(()),
        Event::End(_) => Ok(()),
        Event::Exit(_) => Ok(()),
    }
}

impl<'a> FirstRecords<'a> {
    /// Returns the first records of the sessions of observations.
    pub(crate) fn of(
        alloc: Global,
        observations: &[Observation<'a>],
    ) -> Result<FirstRecords<'a>, NoMem>
        ensures { IfOk result (λ firsts. AreFirsts firsts (map said observations.now)) }
    {
        let mut records = BTreeMap::new(alloc);
        let mut starts = BTreeMap::new(alloc);
        for observation in observations {
            let record = observation.record;
            add(alloc, &mut records, &record.session, record)?;
            add_start(alloc, &mut starts, record)?;
        }
        Ok(FirstRecords { records, starts })
    }

    /// Returns the first record of a session, if it has one.
    pub(crate) fn record(&self, key: &Key) -> Option<&'a Record>
        ensures { (records : List RecordValue) → AreFirsts self.now records
            → option_map (λ found. found.now) result ≡ first_record key.now records }
    {
        match self.records.get(key) {
            Some(record) => Some(*record),
            None => None,
        }
    }

    /// Returns how a session started, by the first record that says so.
    pub(crate) fn start(&self, key: &Key) -> Option<&'a Start>
        ensures { (records : List RecordValue) → AreFirsts self.now records
            → option_map (λ start. start.now) result ≡ first_start key.now records }
    {
        match self.starts.get(key) {
            Some(start) => Some(*start),
            None => None,
        }
    }
}
