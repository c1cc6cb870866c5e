//! Makes cases of spools.
ghost use Rattle.std.specs.Prelude.{◌≡◌, All, IfOk, IfSome};
ghost use Rattle.casebook_case.specs.Cases.{case_of};
ghost use Rattle.casebook_case.specs.Documents.{case_text};
ghost use Rattle.casebook_case.specs.Reading.{case_in};
ghost use Rattle.casebook_case.specs.Written.{IsCaseOf, IsKept};

use crate::NoMem;
use crate::case_fault::CaseFault;
use crate::checking::{check_all, first_of, held_by, lines_of};
use crate::source::SpoolSource;
use crate::values::case_value;
use casebook_spool::{Content, Digest, Item, Lines, Listing, Note};
use retro_path::Bytes;
use std::alloc::Global;
use std::collections::BTreeMap;
use std::str::from_utf8;

/// Adds the digest of the bytes that a note names, if it names some.
fn add_named(named: &mut BTreeMap<[u8; 32], ()>, note: &Note) -> Result<(), NoMem> {
    if let Note::Holds(holds) = note {
        if let Content::Kept(digest) = &holds.content {
            named.insert(digest.bytes, ())?;
        }
    }
    Ok(())
}

/// Returns the digests of the bytes that a first look and observations name.
fn named_in(
    alloc: Global,
    first: &Listing,
    lines: &Lines,
) -> Result<BTreeMap<[u8; 32], ()>, NoMem> {
    let mut named = BTreeMap::new(alloc);
    for note in first.notes() {
        add_named(&mut named, note)?;
    }
    for item in lines.items() {
        if let Item::Note(note) = item {
            add_named(&mut named, note)?;
        }
    }
    Ok(named)
}

/// Returns the bytes that a spool keeps under some digests, in order of these.
fn kept_of<S: SpoolSource>(
    alloc: Global,
    source: &S,
    named: &BTreeMap<[u8; 32], ()>,
) -> Result<Vec<Bytes>, CaseFault>
    ensures { IfSome (S.holds source.now) (λ files. IfOk result (λ all.
        All (IsKept files) all.items)) }
{
    let mut all = Vec::new(alloc);
    for (digest, _) in named {
        if let Some(bytes) = source.content(alloc, &Digest { bytes: *digest })? {
            all.push(bytes)?;
        }
    }
    Ok(all)
}

/// Returns the text that bytes are.
fn text_of(bytes: &[u8]) -> Result<&str, CaseFault>
    ensures { IfOk result (λ text. text.now ≡ bytes.now) }
{
    from_utf8(bytes).map_err(|_| CaseFault::NotText)
}

/// Returns the document of the parts of a case.
fn document_text(
    alloc: Global,
    contents: &[Bytes],
    first: &[u8],
    lines: &[u8],
    unseen: &[u8],
) -> Result<Vec<u8>, CaseFault>
    ensures written { IfOk result (λ text.
        text.items ≡ case_text contents.now first.now lines.now unseen.now) }
    ensures again { IfOk result (λ text.
        case_in text.items ≡ case_of contents.now first.now lines.now unseen.now) }
{
    let first = text_of(first)?;
    let lines = text_of(lines)?;
    let unseen = text_of(unseen)?;
    let value = case_value(alloc, contents, first, lines, unseen)?;
    let mut text = value.to_vec(alloc)?;
    text.push(b'\n')?;
    Ok(text)
}

/// Returns the document of the case of a spool. `unseen` are the rows of the watched folders in
/// which it wasn't always seen what lines only read.
///
/// # Errors
///
/// `Unread` if the spool can't be read, `NotText` if a file of it or `unseen` isn't UTF-8,
/// `BadFirst`, or `BadLine`, `MissingFirst` and `MissingLine` with the number of the first such row.
pub fn spool_case<S: SpoolSource>(
    alloc: Global,
    source: &S,
    unseen: &[u8],
) -> Result<Vec<u8>, CaseFault>
    ensures { IfSome (S.holds source.now) (λ files. IfOk result (λ text.
        IsCaseOf files unseen.now text.items)) }
{
    let first_text = source.first(alloc)?;
    let lines_text = source.lines(alloc)?;
    let first = first_of(alloc, first_text.as_slice())?;
    let lines = lines_of(alloc, lines_text.as_slice())?;
    let named = named_in(alloc, &first, &lines)?;
    let contents = kept_of(alloc, source, &named)?;
    let text = document_text(
        alloc,
        contents.as_slice(),
        first_text.as_slice(),
        lines_text.as_slice(),
        unseen,
    )?;
    let held = held_by(alloc, contents)?;
    check_all(&held, &first, &lines)?;
    Ok(text)
}
