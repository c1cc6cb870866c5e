//! Keeps what files hold.
ghost use Rattle.std.specs.Prelude.{◌≡◌, IfErr, IfOk, IfSome, IsTrue, OnErr, OnOk, map, option_map};
ghost use Rattle.std.specs.FinMap as finmap;
ghost use Rattle.casebook_observe.specs.Files.{OnlyKeeps};
ghost use Rattle.casebook_observe.specs.Notes.{content_of, due_changes, holds_note, holds_notes};
ghost use Rattle.casebook_observe.specs.Notes.{is_due};
ghost use Rattle.casebook_observe.specs.Notes.{with_contents, with_found};
ghost use Rattle.casebook_observe.specs.Refusals.{is_of_system};

use crate::NoMem;
use crate::found::Found;
use crate::observe_error::ObserveError;
use crate::spool::Spool;
use crate::spool_error::SpoolError;
use crate::watched::Watched;
use casebook_spool::{Content, Digest, Holds, Note};
use casebook_watch::{Kind, SightChange, Sights};
use sha2::{Digest as _, Sha256};
use std::alloc::Global;

/// Returns whether the file or link of a change is to be read: it is new or changed.
fn is_due(before: &Sights, change: &SightChange) -> bool
    ensures { result ≡ is_due (finmap.get before.now change.now.path) change.now.sight }
{
    match change.sight {
        Some(sight) => {
            let is_read = sight.kind == Kind::File || sight.kind == Kind::Link;
            is_read && sight.is_changed(before.get(&change.path))
        }
        None => false,
    }
}

/// Keeps the bytes of a file, and returns what is said of what was found.
fn keep_found<S: Spool>(spool: &mut S, found: Found) -> Result<Content, SpoolError>
    ensures content { IfOk result (λ content. content ≡ content_of found) }
    ensures ok { OnOk result
        (S.holds spool.new ≡ option_map (λ files. with_found files found) (S.holds spool.old)) }
    ensures err { OnErr result (S.holds spool.new ≡ S.holds spool.old) }
{
    match found {
        Found::Bytes(bytes) => {
            let digest = Digest {
                bytes: Sha256::digest(bytes.as_slice()),
            };
            spool.keep(&digest, bytes.as_slice())?;
            Ok(Content::Kept(digest))
        }
        Found::Target(target) => Ok(Content::Target(target)),
        Found::Unkept(why) => Ok(Content::Unkept(why)),
    }
}

/// Reads the file or link of a change, keeps its bytes, and returns the note of what it holds.
fn keep_change<S: Spool, W: Watched>(
    alloc: Global,
    spool: &mut S,
    watched: &mut W,
    change: &SightChange,
) -> Result<Note, ObserveError>
    ensures same { W.finds watched.new ≡ W.finds watched.old }
    ensures note { IfSome (W.finds watched.old) (λ world. IfOk result (λ note.
        note ≡ holds_note change.now.path (world.held change.now.path))) }
    ensures kept { IfSome (W.finds watched.old) (λ world. OnOk result (S.holds spool.new
        ≡ option_map (λ files. with_found files (world.held change.now.path))
        (S.holds spool.old))) }
    ensures any { OnlyKeeps (S.holds spool.old) (S.holds spool.new) }
    ensures err { IfErr result (λ error. IsTrue (is_of_system error)) }
{
    let found = watched.read(alloc, &change.path)?;
    let content = keep_found(spool, found)?;
    let path = change.path.copy()?;
    Ok(Note::Holds(Holds { path, content }))
}

/// Returns the changes of the files and links that are to be read.
fn due_changes<'c>(
    alloc: Global,
    before: &Sights,
    changes: &'c [SightChange],
) -> Result<Vec<&'c SightChange>, NoMem>
    ensures { IfOk result (λ due. map (λ change. change.now) due.items
        ≡ due_changes before.now changes.now) }
{
    let mut due = Vec::new(alloc);
    for change in changes {
        if is_due(before, change) {
            due.push(change)?;
        }
    }
    Ok(due)
}

/// Reads the files and links of changes, keeps the bytes of the files, and returns a note of what
/// each of them holds.
fn keep_all<S: Spool, W: Watched>(
    alloc: Global,
    spool: &mut S,
    watched: &mut W,
    changes: &[&SightChange],
) -> Result<Vec<Note>, ObserveError>
    ensures same { W.finds watched.new ≡ W.finds watched.old }
    ensures notes { IfSome (W.finds watched.old) (λ world. IfOk result (λ notes.
        notes.items ≡ holds_notes world (map (λ change. change.now) changes.now))) }
    ensures kept { IfSome (W.finds watched.old) (λ world. OnOk result (S.holds spool.new
        ≡ option_map (λ files. with_contents world (map (λ change. change.now) changes.now) files)
        (S.holds spool.old))) }
    ensures any { OnlyKeeps (S.holds spool.old) (S.holds spool.new) }
    ensures err { IfErr result (λ error. IsTrue (is_of_system error)) }
{
    let mut notes = Vec::with_capacity(alloc, changes.len())?;
    for change in changes {
        notes.push(keep_change(alloc, spool, watched, change)?)?;
    }
    Ok(notes)
}

/// Reads the files and links that are new or changed, keeps the bytes of the files, and returns a
/// note of what each of them holds.
pub(crate) fn keep_contents<S: Spool, W: Watched>(
    alloc: Global,
    spool: &mut S,
    watched: &mut W,
    before: &Sights,
    changes: &[SightChange],
) -> Result<Vec<Note>, ObserveError>
    ensures same { W.finds watched.new ≡ W.finds watched.old }
    ensures notes { IfSome (W.finds watched.old) (λ world. IfOk result (λ notes.
        notes.items ≡ holds_notes world (due_changes before.now changes.now))) }
    ensures kept { IfSome (W.finds watched.old) (λ world. OnOk result (S.holds spool.new
        ≡ option_map (λ files. with_contents world (due_changes before.now changes.now) files)
        (S.holds spool.old))) }
    ensures any { OnlyKeeps (S.holds spool.old) (S.holds spool.new) }
    ensures err { IfErr result (λ error. IsTrue (is_of_system error)) }
{
    let due = due_changes(alloc, before, changes)?;
    keep_all(alloc, spool, watched, due.as_slice())
}
