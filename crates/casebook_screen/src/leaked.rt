//! What cancelled lines showed.
ghost use Rattle.std.specs.Prelude.{◌≡◌, ◌++◌, IfOk, OnOk, flat_map};
ghost use Rattle.casebook_screen.specs.Told.{leak_told, leaks_told, unshown_in};

use crate::NoMem;
use crate::head::push_some;
use crate::names::Names;
use crate::screen::Screen;
use crate::shown::{TEXT_LIMIT, command_line, push_name, push_number};
use casebook_summary::{Leak, Summary};
use casebook_view::{CaseLine, Fate};
use retro_keep::Recording;
use std::alloc::Global;

/// Appends a cancelled line that showed something, and how many bytes it showed.
fn push_leak(
    screen: &mut Screen,
    alloc: Global,
    recording: &Recording,
    names: Names<'_>,
    leak: &Leak,
) -> Result<(), NoMem>
    ensures { OnOk result (screen.new
        ≡ screen.old ++ leak_told recording.now names.entry.labels.now leak.now) }
{
    push_number(screen, alloc, leak.number)?;
    screen.words(" ")?;
    push_name(screen, alloc, names, leak.session)?;
    screen.words(" ")?;
    screen.text(command_line(alloc, recording, leak.number, TEXT_LIMIT)?)?;
    screen.words("   (")?;
    screen.count(leak.bytes, "byte")?;
    screen.words(")")?;
    screen.end()
}

/// Appends a line for each cancelled line that showed something.
fn push_leaks(
    screen: &mut Screen,
    alloc: Global,
    recording: &Recording,
    names: Names<'_>,
    leaks: &[Leak],
) -> Result<(), NoMem>
    ensures { OnOk result (screen.new ≡ screen.old
        ++ flat_map (leak_told recording.now names.entry.labels.now) leaks.now) }
{
    for leak in leaks {
        push_leak(screen, alloc, recording, names, leak)?;
    }
    Ok(())
}

/// Returns the cancelled lines of which it isn't known what they showed, since they stand as they
/// were observed.
fn unshown_in(alloc: Global, lines: &[CaseLine]) -> Result<Vec<u32>, NoMem>
    ensures { IfOk result (λ numbers. numbers.items ≡ unshown_in lines.now) }
{
    lines
        .iter()
        .filter(|line| line.fate == Fate::Cancelled && line.is_observed)
        .map(|line| line.number)
        .collect(alloc)
}

/// Appends what cancelled lines showed: an empty line, how many there are, each of them, and of
/// which others it isn't known.
pub(crate) fn push_leaked(
    screen: &mut Screen,
    alloc: Global,
    recording: &Recording,
    names: Names<'_>,
    summary: &Summary,
) -> Result<(), NoMem>
    ensures { OnOk result (screen.new
        ≡ screen.old ++ leaks_told recording.now names.entry.labels.now summary.now) }
{
    let unshown = unshown_in(alloc, summary.lines.as_slice())?;
    screen.end()?;
    screen.said(alloc, "LEAKED  ")?;
    screen.count(summary.leaks.len(), "cancelled line")?;
    screen.words(" showed something")?;
    screen.end()?;
    push_leaks(screen, alloc, recording, names, summary.leaks.as_slice())?;
    push_some(
        screen,
        alloc,
        "  ? what other cancelled lines showed isn't recorded: lines",
        unshown.as_slice(),
    )
}
