//! What cancelled and replaced lines read.
ghost use Rattle.std.specs.Prelude.{◌≡◌, ◌++◌, OnOk, count_by, flat_map};
ghost use Rattle.casebook_summary.specs.Effects.{effect_value};
ghost use Rattle.casebook_screen.specs.Told.{has_paths, read_told, reads_told};

use crate::NoMem;
use crate::screen::Screen;
use crate::shown::{push_first_paths, push_number};
use casebook_summary::Effect;
use std::alloc::Global;

/// Appends a line and the first paths that it read, unless it read none.
fn push_read(screen: &mut Screen, alloc: Global, effect: &Effect) -> Result<(), NoMem>
    ensures { OnOk result (screen.new ≡ screen.old ++ read_told (effect_value effect.now)) }
{
    if effect.read.is_empty() {
        return Ok(());
    }
    push_number(screen, alloc, effect.number)?;
    screen.words(" ")?;
    push_first_paths(screen, alloc, effect.read.as_slice())?;
    screen.end()
}

/// Appends a line for each edited line that read something.
fn push_each(screen: &mut Screen, alloc: Global, effects: &[Effect]) -> Result<(), NoMem>
    ensures { OnOk result (screen.new ≡ screen.old
        ++ flat_map (λ effect. read_told (effect_value effect)) effects.now) }
{
    for effect in effects {
        push_read(screen, alloc, effect)?;
    }
    Ok(())
}

/// Returns how many of some lines read something.
fn count_reading(effects: &[Effect]) -> usize
    ensures { result ≡ count_by (λ effect. has_paths effect.read.items) effects.now }
{
    effects
        .iter()
        .filter(|effect| !effect.read.is_empty())
        .count()
}

/// Appends what cancelled and replaced lines read: an empty line, how many read something, and each
/// of them.
pub(crate) fn push_reads(
    screen: &mut Screen,
    alloc: Global,
    effects: &[Effect],
) -> Result<(), NoMem>
    ensures { OnOk result (screen.new ≡ screen.old ++ reads_told effects.now) }
{
    screen.end()?;
    screen.said(alloc, "READ  ")?;
    screen.count(count_reading(effects), "edited line")?;
    screen.words(" read what is in files or directories")?;
    screen.end()?;
    push_each(screen, alloc, effects)
}
