//! Reads the files `first` and `listing`.
ghost use Rattle.std.specs.Prelude.{◌≡◌, IfOk, map};
ghost use Rattle.casebook_spool.specs.Listings.{listing_in, listing_of, notes_of};
ghost use Rattle.casebook_spool.specs.inner.Faults.{ReadsNotes, ReadsRow};

use crate::NoMem;
use crate::head::Head;
use crate::lines::front;
use crate::note::Note;
use crate::reading::note_of;
use crate::row_fault::{RowFault, or_wrong};
use casebook_rows::{fields_of, rows_of};
use std::alloc::Global;
use std::marker::Model;

/// What the files `first` and `listing` say.
#[derive(Drop)]
pub struct Listing {
    at: u64,
    notes: Vec<Note>,
}

impl Model for Listing {
    ghost use Rattle.casebook_spool.specs.Said.{ListingValue};

    ghost Value = { ListingValue };

    ghost view = { λ a. record { at = a.at; said = a.notes.items } };
}

impl Listing {
    /// Returns to which byte of the file `lines` it goes.
    pub fn at(&self) -> u64
        ensures { result ≡ self.now.at }
    {
        self.at
    }

    /// Returns its notes.
    pub fn notes(&self) -> &[Note]
        ensures { result.now ≡ self.now.said }
    {
        self.notes.as_slice()
    }
}

/// Reads the notes that rows are.
#[tactic(auto, unfolding(crate::specs::Listings::notes_of))]
fn notes_of(alloc: Global, rows: &[&[u8]]) -> Result<Vec<Note>, RowFault>
    ensures { ReadsNotes result (notes_of (map (λ row. row.now) rows.now)) }
{
    let mut notes = Vec::with_capacity(alloc, rows.len())?;
    for row in rows {
        let fields = fields_of(alloc, row)?;
        match note_of(alloc, fields.as_slice()) {
            Ok(note) => notes.push(note)?,
            Err(RowFault::NoMem) => return Err(RowFault::NoMem),
            Err(RowFault::Wrong) => return Err(RowFault::Wrong),
        }
    }
    Ok(notes)
}

/// Reads a listing from its rows.
fn listing_in(alloc: Global, rows: &[&[u8]]) -> Result<Listing, RowFault>
    ensures { ReadsRow result (listing_in (map (λ row. row.now) rows.now)) }
{
    let [head, rows @ ..] = rows else {
        return Err(RowFault::Wrong);
    };
    let fields = fields_of(alloc, head)?;
    let head = or_wrong(Head::of(fields.as_slice()))?;
    let notes = notes_of(alloc, rows)?;
    if notes.len() as u64 == head.count {
        Ok(Listing { at: head.at, notes })
    } else {
        Err(RowFault::Wrong)
    }
}

/// Reads a listing. Returns `None` for a text that is cut off or isn't one.
#[tactic(auto, unfolding(crate::specs::Listings::listing_of))]
pub fn read_listing(alloc: Global, text: &[u8]) -> Result<Option<Listing>, NoMem>
    ensures { IfOk result (λ listing. listing ≡ listing_of text.now) }
{
    let rows = rows_of(alloc, text)?;
    match listing_in(alloc, front(rows.as_slice())) {
        Ok(listing) => Ok(Some(listing)),
        Err(RowFault::NoMem) => Err(NoMem),
        Err(RowFault::Wrong) => Ok(None),
    }
}
