//! What cancelled and replaced lines led to.
ghost use Rattle.std.specs.Prelude.{◌≡◌, ℕ, List, IfOk, map};
ghost use Rattle.std.specs.List.{filter};
ghost use Rattle.casebook_summary.specs.Counts.{count_of};
ghost use Rattle.casebook_summary.specs.Effects.{effect_of, effect_value, effects_of, has_replaced};
ghost use Rattle.casebook_summary.specs.Effects.{is_led_to, is_origin, paths_written};
ghost use Rattle.casebook_view.specs.declared.case_line.CaseLine.{CaseLine as LineValue};
ghost use Rattle.casebook_summary.specs.Reads.{paths_read};
ghost use Rattle.casebook_summary.specs.inner.LedLines.{led_at};
ghost use Rattle.casebook_view.specs.Reasons.{notes_at};

use crate::NoMem;
use crate::led_lines::LedLines;
use crate::reads::paths_read;
use casebook_view::{Case, CaseLine, Fate, Reason, Why, written_paths};
use retro_tree::Path;
use std::alloc::Global;

/// A line that is cancelled or replaced, and what it led to.
#[derive(Drop)]
pub struct Effect {
    /// The line's number.
    pub number: u32,
    /// The other lines that are run again because of it, in order. Each line is with the one at the
    /// end of its chain of causes.
    pub led: Vec<CaseLine>,
    /// The paths of the files and directories whose contents it read, each once, in order. Of an
    /// observed line these are those that it may have read.
    pub read: Vec<Path>,
    /// The paths that it wrote, each once, in the order in which they first occur.
    pub wrote: Vec<Path>,
}

impl Effect {
    /// Returns to how many lines with a fate the line led.
    pub fn count(&self, fate: Fate) -> usize
        ensures { result ≡ count_of self.now.led.items fate }
    {
        self.led.iter().filter(|line| line.fate == fate).count()
    }
}

/// Returns whether a reason is that an edit replaces the line's text.
fn has_replaced(reason: Option<Reason>) -> bool
    ensures { result ≡ has_replaced reason }
{
    match reason {
        Some(reason) => matches!(reason.why, Why::Replaced),
        None => false,
    }
}

/// Returns whether a line is cancelled, or run again since an edit replaces its text.
fn is_origin(line: &CaseLine) -> bool
    ensures { result ≡ is_origin line.now }
{
    match line.fate {
        Fate::Cancelled => true,
        Fate::Changed | Fate::Alike => has_replaced(line.reason),
        Fate::Kept | Fate::Untouched => false,
    }
}

/// Returns the paths that a line wrote.
fn wrote(alloc: Global, case: &Case<'_>, number: u32) -> Result<Vec<Path>, NoMem>
    ensures { IfOk result (λ paths.
        paths.items ≡ paths_written case.now.recording number) }
{
    match case.recorded(number) {
        Some(noted) => written_paths(alloc, noted.notes.as_slice()),
        None => Ok(Vec::new(alloc)),
    }
}

/// Returns the paths whose contents a line read.
fn read(alloc: Global, case: &Case<'_>, number: u32) -> Result<Vec<Path>, NoMem>
    ensures { IfOk result (λ paths.
        paths.items ≡ paths_read (notes_at number case.now.recording)) }
{
    match case.recorded(number) {
        Some(noted) => paths_read(alloc, noted.notes.as_slice()),
        None => Ok(Vec::new(alloc)),
    }
}

/// Returns what a line led to. The contract says this of all lines whose led ones these are.
fn effect_of(alloc: Global, case: &Case<'_>, led: &LedLines, number: u32) -> Result<Effect, NoMem>
    ensures { (lines : List LineValue)
        → ((n : ℕ) → led_at led.now n ≡ filter (is_led_to n) lines) → IfOk result (λ effect.
        effect_value effect ≡ effect_of case.now.recording lines number) }
{
    let led = led.at(alloc, number)?;
    let read = read(alloc, case, number)?;
    let wrote = wrote(alloc, case, number)?;
    Ok(Effect {
        number,
        led,
        read,
        wrote,
    })
}

/// Returns what each cancelled or replaced line led to, in order.
pub fn effects(alloc: Global, case: &Case<'_>, lines: &[CaseLine]) -> Result<Vec<Effect>, NoMem>
    ensures { IfOk result (λ found.
        map effect_value found.items ≡ effects_of case.now.recording lines.now) }
{
    let led = LedLines::of(alloc, lines)?;
    let mut found = Vec::new(alloc);
    for line in lines {
        if is_origin(line) {
            found.push(effect_of(alloc, case, &led, line.number)?)?;
        }
    }
    Ok(found)
}
