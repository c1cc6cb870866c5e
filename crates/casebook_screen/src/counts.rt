//! How many lines have which fate.
ghost use Rattle.std.specs.Prelude.{◌≡◌, ◌++◌, IsTrue, OnOk};
ghost use Rattle.std.specs.List.{list_all};
ghost use Rattle.casebook_text.specs.SafeText.{is_printable};
ghost use Rattle.casebook_screen.specs.Told.{count_told, counts_told, fate_words};

use crate::NoMem;
use crate::screen::Screen;
use crate::shown::COUNT_WIDTH;
use casebook_summary::Summary;
use casebook_view::Fate;
use std::alloc::Global;

/// Returns what becomes of lines with a fate, in words.
#[tactic(auto, unfolding(crate::specs::Told::fate_words))]
pub(crate) fn fate_words(fate: Fate) -> &'static str
    ensures value { result.now ≡ fate_words fate }
    ensures printable { IsTrue (list_all is_printable result.now) }
{
    match fate {
        Fate::Cancelled => "cancelled",
        Fate::Changed => "run again, another result",
        Fate::Alike => "run again, the same result",
        Fate::Kept => "met, kept as recorded",
        Fate::Untouched => "untouched",
    }
}

/// Appends how many lines have a fate.
#[tactic(auto, unfolding(crate::specs::Told::count_told))]
fn push_count(
    screen: &mut Screen,
    alloc: Global,
    summary: &Summary,
    fate: Fate,
) -> Result<(), NoMem>
    ensures { OnOk result (screen.new ≡ screen.old ++ count_told summary.now.lines fate) }
{
    screen.column(alloc, summary.count(fate) as u64, COUNT_WIDTH)?;
    screen.words(" ")?;
    screen.said(alloc, fate_words(fate))?;
    screen.end()
}

/// Appends how many lines have which fate, one line for each fate.
pub(crate) fn push_counts(
    screen: &mut Screen,
    alloc: Global,
    summary: &Summary,
) -> Result<(), NoMem>
    ensures { OnOk result (screen.new ≡ screen.old ++ counts_told summary.now.lines) }
{
    push_count(screen, alloc, summary, Fate::Cancelled)?;
    push_count(screen, alloc, summary, Fate::Changed)?;
    push_count(screen, alloc, summary, Fate::Alike)?;
    push_count(screen, alloc, summary, Fate::Kept)?;
    push_count(screen, alloc, summary, Fate::Untouched)
}
