//! The last look of a spool.
ghost use Rattle.std.specs.Prelude.{◌≡◌, ◌+◌, ◌^◌, ◌<◌, IfErr, IfOk, IfSome, IsTrue, length};
ghost use Rattle.casebook_observe.specs.Last.{first_look, last_look, listed_look, look_after};
ghost use Rattle.casebook_observe.specs.Last.{look_of, look_of_first};
ghost use Rattle.casebook_observe.specs.Refusals.{is_of_look};
ghost use Rattle.casebook_observe.specs.inner.Reads.{ReadsListed, ReadsLook};

use crate::NoMem;
use crate::observe_error::ObserveError;
use crate::spool::Spool;
use crate::spool_error::SpoolError;
use casebook_spool::{LinesError, Listing, after_items, after_notes, read_lines, read_listing};
use casebook_watch::Sights;
use std::alloc::Global;

/// What the last look saw, and how much of the file `lines` is whole.
#[derive(Drop)]
pub(crate) struct LastLook {
    /// The sights that it left.
    pub sights: Sights,
    /// To which byte of the file `lines` the listing goes by which it was made.
    pub start: u64,
    /// How many bytes of the file `lines` are whole. What follows was cut off.
    pub whole: u64,
    /// Whether it is that of the file `listing`.
    pub is_listed: bool,
}

/// How many bytes the file `lines` may be ahead of the listing, before that is written again.
const LISTING_LAG: u64 = 65_536;

impl LastLook {
    /// Returns whether the file `lines` is so far ahead of the listing that this is to be written
    /// again.
    pub(crate) fn is_far_ahead(&self) -> bool {
        self.whole.saturating_sub(self.start) > LISTING_LAG
    }
}

/// Returns what the listing says that the file `first` is.
fn look_of_first(alloc: Global, listing: &Listing) -> Result<LastLook, NoMem>
    ensures { IfOk result (λ look. look ≡ look_of_first listing.now) }
{
    Ok(LastLook {
        sights: after_notes(Sights::new(alloc), listing.notes())?,
        start: 0,
        whole: 0,
        is_listed: false,
    })
}

/// Returns what the listing says that the file `listing` is.
fn look_of(alloc: Global, listing: &Listing) -> Result<LastLook, NoMem>
    ensures { IfOk result (λ look. look ≡ look_of listing.now) }
{
    Ok(LastLook {
        sights: after_notes(Sights::new(alloc), listing.notes())?,
        start: listing.at(),
        whole: listing.at(),
        is_listed: true,
    })
}

/// Returns what the file `first` says.
fn first_look<S: Spool>(alloc: Global, spool: &S) -> Result<LastLook, ObserveError>
    ensures value { IfSome (S.holds spool.now) (λ files. ReadsLook result (first_look files)) }
    ensures err { IfErr result (λ error. IsTrue (is_of_look error)) }
{
    let text = spool.first(alloc)?;
    match read_listing(alloc, text.as_slice())? {
        Some(listing) => Ok(look_of_first(alloc, &listing)?),
        None => Err(ObserveError::First),
    }
}

/// Returns a look after what the file `lines` says since then, of which this is the text.
fn look_after(alloc: Global, look: LastLook, lines: &[u8]) -> Result<LastLook, ObserveError>
    ensures value { look.whole + length lines.now < 2 ^ 64
        → ReadsLook result (look_after look lines.now) }
    ensures err { IfErr result (λ error. IsTrue (is_of_look error)) }
{
    match read_lines(alloc, lines) {
        Ok(lines) => {
            let Some(whole) = look.whole.checked_add(lines.whole() as u64) else {
                return Err(ObserveError::Spool(SpoolError::Failed));
            };
            Ok(LastLook {
                sights: after_items(look.sights, lines.items())?,
                start: look.start,
                whole,
                is_listed: look.is_listed,
            })
        }
        Err(LinesError::NoMem) => Err(ObserveError::NoMem),
        Err(LinesError::Row(number)) => Err(ObserveError::Lines(look.whole, number)),
    }
}

/// Returns the last look by the file `listing`, or `None` if it can't be read, or the file `lines`
/// isn't so long.
fn listed_look<S: Spool>(alloc: Global, spool: &S) -> Result<Option<LastLook>, ObserveError>
    ensures value { IfSome (S.holds spool.now) (λ files. ReadsListed result (listed_look files)) }
    ensures err { IfErr result (λ error. IsTrue (is_of_look error)) }
{
    let text = spool.listing(alloc)?;
    let Some(listing) = read_listing(alloc, text.as_slice())? else {
        return Ok(None);
    };
    match spool.lines(alloc, listing.at())? {
        Some(lines) => {
            let look = look_of(alloc, &listing)?;
            Ok(Some(look_after(alloc, look, lines.as_slice())?))
        }
        None => Ok(None),
    }
}

/// Returns the last look: by the file `listing` if it can be read, and else by the file `first`,
/// and what the file `lines` says since then.
#[tactic(auto, unfolding(crate::specs::Last::last_look))]
pub(crate) fn last_look<S: Spool>(alloc: Global, spool: &S) -> Result<LastLook, ObserveError>
    ensures value { IfSome (S.holds spool.now) (λ files. ReadsLook result (last_look files)) }
    ensures err { IfErr result (λ error. IsTrue (is_of_look error)) }
{
    if let Some(look) = listed_look(alloc, spool)? {
        return Ok(look);
    }
    let look = first_look(alloc, spool)?;
    match spool.lines(alloc, 0)? {
        Some(lines) => look_after(alloc, look, lines.as_slice()),
        None => Err(ObserveError::Spool(SpoolError::Failed)),
    }
}
