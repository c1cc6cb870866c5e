//! Summaries of repairs, as a terminal shows them.
ghost use Rattle.std.specs.Prelude.{◌≡◌, ◌++◌, IfOk, OnOk};
ghost use Rattle.casebook_screen.specs.Screen.{IsScreen};
ghost use Rattle.casebook_screen.specs.Told.{about_told, front_told, summary_told};

use crate::NoMem;
use crate::causes::push_causes;
use crate::counts::push_counts;
use crate::head::{push_basis, push_head};
use crate::leaked::push_leaked;
use crate::names::Names;
use crate::reads::push_reads;
use crate::restore::push_restore;
use crate::screen::Screen;
use crate::tell::{push_looked, push_tell};
use crate::unknown::push_unknown;
use casebook_summary::Summary;
use casebook_text::SafeLine;
use casebook_view::Case;
use std::alloc::Global;

/// Appends what the log holds and what it rests on, which lines aren't understood or have to be run
/// for real, and how many lines have which fate.
fn push_front(
    screen: &mut Screen,
    alloc: Global,
    case: &Case<'_>,
    summary: &Summary,
    names: Names<'_>,
) -> Result<(), NoMem>
    ensures { OnOk result (screen.new ≡ screen.old
        ++ front_told case.now.source summary.now names.entry.labels.now) }
{
    push_head(screen, alloc, names.labels, summary)?;
    push_basis(screen, alloc, case.source(), summary.is_recording)?;
    screen.end()?;
    push_unknown(screen, alloc, case.source(), summary)?;
    screen.end()?;
    push_counts(screen, alloc, summary)
}

/// Appends whom to tell about what, who looked at what, what cancelled lines showed, and what each
/// edited line read and led to.
fn push_about(
    screen: &mut Screen,
    alloc: Global,
    case: &Case<'_>,
    summary: &Summary,
    names: Names<'_>,
) -> Result<(), NoMem>
    ensures { OnOk result (screen.new ≡ screen.old
        ++ about_told case.now.recording summary.now names.entry.labels.now) }
{
    push_tell(screen, alloc, names, summary)?;
    push_looked(screen, alloc, names, summary)?;
    push_leaked(screen, alloc, case.recording(), names, summary)?;
    push_reads(screen, alloc, summary.effects.as_slice())?;
    push_causes(screen, alloc, case.recording(), summary)
}

/// Returns a summary as the lines that a terminal shows: what the log holds and what it rests on,
/// which lines aren't understood or have to be run for real, how many lines have which fate, what
/// is to be restored, whom to tell about what, who looked at what by lines that have to be run for
/// real, which cancelled lines showed something or may have, and what each edited line read and led
/// to.
pub fn summary_lines(
    alloc: Global,
    case: &Case<'_>,
    summary: &Summary,
    names: Names<'_>,
) -> Result<Vec<SafeLine>, NoMem>
    ensures { IfOk result (λ lines. IsScreen (summary_told case.now.source
        case.now.recording summary.now names.entry.labels.now) lines.items) }
{
    let mut screen = Screen::new(alloc);
    push_front(&mut screen, alloc, case, summary, names)?;
    push_restore(&mut screen, alloc, summary)?;
    push_about(&mut screen, alloc, case, summary, names)?;
    screen.lines(alloc)
}
