//! Makes cases of their parts.
ghost use Rattle.std.specs.Prelude.{◌≡◌, IfOk, ok_or, position};
ghost use Rattle.casebook_case.specs.Cases.{all_held, case_of, case_with, held_by, item_lacks, lacks};
ghost use Rattle.casebook_case.specs.Cases.{lines_or, missing_first, missing_line, unless_at};
ghost use Rattle.casebook_case.specs.Reads.{Reads};
ghost use Rattle.casebook_spool.specs.Lines.{lines_of};
ghost use Rattle.casebook_spool.specs.Listings.{listing_of};
ghost use Rattle.casebook_case.specs.declared.case_fault.CaseFault.TheVariants.{BadFirst};

use crate::NoMem;
use crate::case::Case;
use crate::case_fault::CaseFault;
use casebook_spool::{
    Content, Contents, Item, Lines, LinesError, Listing, Note, read_lines, read_listing,
};
use retro_path::Bytes;
use std::alloc::Global;

/// Returns bytes, each under their own digest.
pub(crate) fn held_by(alloc: Global, all: Vec<Bytes>) -> Result<Contents, NoMem>
    ensures { IfOk result (λ held. held ≡ held_by all.items) }
{
    let mut held = Contents::new(alloc);
    for bytes in all {
        held.add(bytes)?;
    }
    Ok(held)
}

/// Returns whether bytes aren't held that a note names.
fn lacks(held: &Contents, note: &Note) -> bool
    ensures { result ≡ lacks held.now note.now }
{
    match note {
        Note::Holds(holds) => match &holds.content {
            Content::Kept(digest) => held.get(digest).is_none(),
            Content::Target(_) => false,
            Content::Unkept(_) => false,
        },
        Note::Sight(_) => false,
        Note::Looked(_) => false,
    }
}

/// Returns whether bytes aren't held that an item names.
fn item_lacks(held: &Contents, item: &Item) -> bool
    ensures { result ≡ item_lacks held.now item.now }
{
    match item {
        Item::Note(note) => lacks(held, note),
        Item::Record(_) => false,
    }
}

/// Returns the place of the first note whose bytes aren't held.
fn first_lacking(held: &Contents, notes: &[Note]) -> Option<usize>
    ensures { result ≡ position (lacks held.now) notes.now }
{
    notes.iter().position(|note| lacks(held, note))
}

/// Returns the place of the first item whose bytes aren't held.
fn first_item_lacking(held: &Contents, items: &[Item]) -> Option<usize>
    ensures { result ≡ position (item_lacks held.now) items.now }
{
    items.iter().position(|item| item_lacks(held, item))
}

/// Checks that all bytes are held that notes of a first look name.
fn check_first(held: &Contents, first: &Listing) -> Result<(), CaseFault>
    ensures { Reads (λ done. done) result
        (unless_at missing_first (position (lacks held.now) first.now.said)) }
{
    match first_lacking(held, first.notes()) {
        Some(place) => Err(CaseFault::MissingFirst(place + 2)),
        None => Ok(()),
    }
}

/// Checks that all bytes are held that notes of observations name.
fn check_lines(held: &Contents, lines: &Lines) -> Result<(), CaseFault>
    ensures { Reads (λ done. done) result
        (unless_at missing_line (position (item_lacks held.now) lines.now.said)) }
{
    match first_item_lacking(held, lines.items()) {
        Some(place) => Err(CaseFault::MissingLine(place + 1)),
        None => Ok(()),
    }
}

/// Checks that all bytes are held that the notes of a first look and of observations name.
pub(crate) fn check_all(held: &Contents, first: &Listing, lines: &Lines) -> Result<(), CaseFault>
    ensures { Reads (λ done. done) result (all_held held.now first.now lines.now) }
{
    check_first(held, first)?;
    check_lines(held, lines)
}

/// Returns the case of a first look, of observations and of bytes.
fn case_with(
    alloc: Global,
    contents: Contents,
    first: Listing,
    lines: Lines,
    unseen: &[u8],
) -> Result<Case, CaseFault>
    ensures { Reads (λ found. found) result (case_with contents first lines unseen.now) }
{
    check_all(&contents, &first, &lines)?;
    Ok(Case {
        first,
        lines,
        contents,
        unseen: Bytes::of(Vec::from_slice(alloc, unseen)?),
    })
}

/// Reads a first look.
pub(crate) fn first_of(alloc: Global, text: &[u8]) -> Result<Listing, CaseFault>
    ensures { Reads (λ first. first) result (ok_or (listing_of text.now) BadFirst) }
{
    read_listing(alloc, text)?.ok_or(CaseFault::BadFirst)
}

/// Reads observations.
pub(crate) fn lines_of(alloc: Global, text: &[u8]) -> Result<Lines, CaseFault>
    ensures { Reads (λ lines. lines) result (lines_or (lines_of text.now)) }
{
    match read_lines(alloc, text) {
        Ok(lines) => Ok(lines),
        Err(LinesError::NoMem) => Err(CaseFault::NoMem),
        Err(LinesError::Row(row)) => Err(CaseFault::BadLine(row)),
    }
}

/// Returns the case of its parts.
#[tactic(auto, unfolding(crate::specs::Cases::case_of))]
pub(crate) fn case_of(
    alloc: Global,
    contents: Vec<Bytes>,
    first: &[u8],
    lines: &[u8],
    unseen: &[u8],
) -> Result<Case, CaseFault>
    ensures { Reads (λ found. found) result
        (case_of contents.items first.now lines.now unseen.now) }
{
    let first = first_of(alloc, first)?;
    let lines = lines_of(alloc, lines)?;
    let held = held_by(alloc, contents)?;
    case_with(alloc, held, first, lines, unseen)
}
