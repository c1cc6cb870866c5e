//! Takes observations.
ghost use Rattle.std.specs.Prelude.{◌≡◌, ◌++◌, IfErr, IfOk, IfSome, IsOk, IsTrue};
ghost use Rattle.std.specs.Prelude.{Ok, OnErr, OnOk, map};
ghost use Rattle.std.specs.Prelude.{option_map};
ghost use Rattle.casebook_record.specs.Fields.{fields_of};
ghost use Rattle.casebook_record.specs.Records.{record_of};
ghost use Rattle.casebook_spool.specs.declared.note.Note.TheVariants as notes;
ghost use Rattle.casebook_spool.specs.Written.{listing_text, sights_notes};
ghost use Rattle.casebook_observe.specs.Files.{OnlyKeeps, with_first, with_listing};
ghost use Rattle.casebook_observe.specs.Last.{last_look};
ghost use Rattle.casebook_observe.specs.Notes.{due_since, notes_between, with_contents};
ghost use Rattle.casebook_observe.specs.Observed.{IsListed, IsObserved, IsTaken, LosesNoRecord};
ghost use Rattle.casebook_observe.specs.Observed.{LosesNothing, settled, started};
ghost use Rattle.casebook_observe.specs.Refusals.{IsBadRecord, IsRefusal, is_of_system};

use crate::NoMem;
use crate::contents::keep_contents;
use crate::last_look::{LastLook, last_look};
use crate::observe_error::ObserveError;
use crate::spool::Spool;
use crate::spool_error::SpoolError;
use crate::watched::Watched;
use casebook_record::{fields_of, record_in};
use casebook_spool::{Looked, Note, listing_text, observation_text, sights_text};
use casebook_watch::{SightChange, Sights, delta_between};
use std::alloc::Global;

/// Returns the notes of an observation.
fn joined(
    alloc: Global,
    changes: Vec<SightChange>,
    held: Vec<Note>,
    looked: Vec<Looked>,
) -> Result<Vec<Note>, NoMem>
    ensures { IfOk result (λ all. all.items
        ≡ map (λ change. notes.Sight change) changes.items ++ held.items
        ++ map (λ looked. notes.Looked looked) looked.items) }
{
    let mut notes = Vec::with_capacity(alloc, changes.len())?;
    for change in changes {
        notes.push(Note::Sight(change))?;
    }
    for note in held {
        notes.push(note)?;
    }
    for looked in looked {
        notes.push(Note::Looked(looked))?;
    }
    Ok(notes)
}

/// Looks at the watched folders, and keeps what new and changed files hold. Returns the notes of
/// what differs from the sights of the last look.
fn notes_since<S: Spool, W: Watched>(
    alloc: Global,
    spool: &mut S,
    watched: &mut W,
    before: &Sights,
) -> Result<Vec<Note>, ObserveError>
    ensures notes { IfSome (W.finds watched.old) (λ world. IfOk result (λ notes.
        notes.items ≡ notes_between before.now world)) }
    ensures kept { IfSome (W.finds watched.old) (λ world. OnOk result (S.holds spool.new
        ≡ option_map (λ files. with_contents world (due_since before.now world) files)
        (S.holds spool.old))) }
    ensures any { OnlyKeeps (S.holds spool.old) (S.holds spool.new) }
    ensures err { IfErr result (λ error. IsTrue (is_of_system error)) }
{
    let seen = watched.look(alloc, before)?;
    let changes = delta_between(alloc, before, &seen)?;
    let held = keep_contents(alloc, spool, watched, before, changes.as_slice())?;
    let looked = watched.looked(alloc)?;
    Ok(joined(alloc, changes, held, looked)?)
}

/// Starts a spool: writes what the watched folders hold to the file `first`.
pub fn start<S: Spool, W: Watched>(
    alloc: Global,
    spool: &mut S,
    watched: &mut W,
) -> Result<(), ObserveError>
    ensures ok { IfSome (W.finds watched.old) (λ world. OnOk result (S.holds spool.new
        ≡ option_map (λ files. started world files) (S.holds spool.old))) }
    ensures err { OnErr result (OnlyKeeps (S.holds spool.old) (S.holds spool.new)) }
{
    let notes = notes_since(alloc, spool, watched, &Sights::new(alloc))?;
    let text = listing_text(alloc, 0, notes.as_slice())?;
    spool.set_first(text.as_bytes())?;
    Ok(())
}

/// Empties the file `listing`, if the last look isn't its. It may be ahead of the file `lines`, and
/// the text to come would make that longer.
fn settle<S: Spool>(spool: &mut S, last: &LastLook) -> Result<(), SpoolError>
    ensures ok { OnOk result
        (S.holds spool.new ≡ option_map (λ files. settled last.now files) (S.holds spool.old)) }
    ensures err { OnErr result (S.holds spool.new ≡ S.holds spool.old) }
{
    if last.is_listed {
        Ok(())
    } else {
        spool.set_listing(&[])
    }
}

/// Returns the fields of what was sent, if they are those of a record.
fn fields_of_record(alloc: Global, sent: &[u8]) -> Result<Vec<&[u8]>, ObserveError>
    ensures record { OnOk result (IsOk (record_of sent.now)) }
    ensures fields { IfOk result (λ fields.
        fields_of sent.now ≡ Ok (map (λ field. field.now) fields.items)) }
    ensures err { IfErr result (IsBadRecord sent.now) }
{
    let fields = fields_of(alloc, sent)?;
    record_in(alloc, fields.as_slice())?;
    Ok(fields)
}

/// Takes a record, but for the listing. Returns the last look before it.
fn take<S: Spool, W: Watched>(
    alloc: Global,
    spool: &mut S,
    watched: &mut W,
    sent: &[u8],
) -> Result<LastLook, ObserveError>
    ensures record { OnOk result (IsOk (record_of sent.now)) }
    ensures ok { IfSome (W.finds watched.old) (λ world. IfSome (S.holds spool.old) (λ files.
        OnOk result (IsObserved (last_look files) world (fields_of sent.now) files
        (S.holds spool.new)))) }
    ensures any { IfSome (S.holds spool.old) (λ files.
        LosesNothing (last_look files) files (S.holds spool.new)) }
    ensures err { IfErr result (λ error. IfSome (S.holds spool.old) (λ files.
        IsRefusal (last_look files) sent.now error)) }
{
    let fields = fields_of_record(alloc, sent)?;
    let last = last_look(alloc, spool)?;
    settle(spool, &last)?;
    let notes = notes_since(alloc, spool, watched, &last.sights)?;
    let text = observation_text(alloc, notes.as_slice(), fields.as_slice())?;
    spool.append(last.whole, text.as_bytes())?;
    Ok(last)
}

/// Writes the file `listing` of a spool again, of what its other files say. The next observation
/// then has less to read.
pub fn list_again<S: Spool>(alloc: Global, spool: &mut S) -> Result<(), ObserveError>
    ensures ok { IfSome (S.holds spool.old) (λ files. OnOk result
        (IsListed (last_look files) files (S.holds spool.new))) }
    ensures err { OnErr result (S.holds spool.new ≡ S.holds spool.old) }
{
    let last = last_look(alloc, spool)?;
    let text = sights_text(alloc, last.whole, &last.sights)?;
    spool.set_listing(text.as_bytes())?;
    Ok(())
}

/// Takes a record: looks at the watched folders, keeps what new and changed files hold, and appends
/// what differs from the last look and then the record to the file `lines`. If that file was far
/// ahead of the listing, the listing is written again. If that fails, a later record does it.
pub fn observe<S: Spool, W: Watched>(
    alloc: Global,
    spool: &mut S,
    watched: &mut W,
    sent: &[u8],
) -> Result<(), ObserveError>
    ensures record { OnOk result (IsOk (record_of sent.now)) }
    ensures ok { IfSome (W.finds watched.old) (λ world. IfSome (S.holds spool.old) (λ files.
        OnOk result (IsTaken (last_look files) world (fields_of sent.now) files
        (S.holds spool.new)))) }
    ensures any { IfSome (S.holds spool.old) (λ files.
        LosesNoRecord (last_look files) files (S.holds spool.new)) }
    ensures unlisted { IfSome (S.holds spool.old) (λ files. OnErr result
        (LosesNothing (last_look files) files (S.holds spool.new))) }
    ensures err { IfErr result (λ error. IfSome (S.holds spool.old) (λ files.
        IsRefusal (last_look files) sent.now error)) }
{
    let last = take(alloc, spool, watched, sent)?;
    if last.is_far_ahead() {
        // The record is taken, whatever becomes of the listing.
        list_again(alloc, spool).unwrap_or(());
    }
    Ok(())
}
