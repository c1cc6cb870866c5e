//! What cancelled and replaced lines led to.
ghost use Rattle.std.specs.Prelude.{◌≡◌, ◌++◌, ◌∷◌, [], OnOk, flat_map, is_some};
ghost use Rattle.casebook_view.specs.CaseLines.{obstacle_at};
ghost use Rattle.casebook_summary.specs.Effects.{effect_value};
ghost use Rattle.casebook_screen.specs.Told.{causes_told, effect_by, effect_told, led_told};
ghost use Rattle.casebook_screen.specs.Told.{paths_told};
ghost use Rattle.casebook_screen.specs.declared.piece.Piece.TheVariants.{Text as Told};

use crate::NoMem;
use crate::lines::ascii_line;
use crate::screen::Screen;
use crate::shown::{TEXT_LIMIT, command_line, push_first_paths, push_number};
use casebook_summary::{Effect, Summary};
use casebook_text::SafeLine;
use casebook_view::{CaseLines, Fate};
use retro_keep::Recording;
use retro_tree::Path;
use std::alloc::Global;

/// The width of the columns of counts.
const LED_WIDTH: usize = 5;

/// The width of the column of texts.
const TEXT_WIDTH: usize = 60;

/// Appends the text of a line, and the first paths that it wrote if there are any.
fn push_done(
    screen: &mut Screen,
    alloc: Global,
    text: SafeLine,
    paths: &[Path],
) -> Result<(), NoMem>
    ensures { OnOk result (screen.new ≡ screen.old ++ Told text ∷ paths_told paths.now) }
{
    if paths.is_empty() {
        return screen.text(text);
    }
    screen.padded(text, TEXT_WIDTH)?;
    screen.words(" ")?;
    push_first_paths(screen, alloc, paths)
}

/// Appends a count in a column, or a question mark if the line isn't understood.
fn push_led(screen: &mut Screen, alloc: Global, is_unknown: bool, count: usize) -> Result<(), NoMem>
    ensures { OnOk result (screen.new ≡ screen.old ++ led_told is_unknown count ∷ []) }
{
    if is_unknown {
        return screen.right(ascii_line(alloc, "?")?, LED_WIDTH);
    }
    screen.column(alloc, count as u64, LED_WIDTH)
}

/// Appends what a line led to.
fn push_effect(
    screen: &mut Screen,
    alloc: Global,
    recording: &Recording,
    is_unknown: bool,
    effect: &Effect,
) -> Result<(), NoMem>
    ensures { OnOk result (screen.new
        ≡ screen.old ++ effect_by recording.now is_unknown (effect_value effect.now)) }
{
    let text = command_line(alloc, recording, effect.number, TEXT_LIMIT)?;
    push_number(screen, alloc, effect.number)?;
    push_led(screen, alloc, is_unknown, effect.count(Fate::Changed))?;
    push_led(screen, alloc, is_unknown, effect.count(Fate::Alike))?;
    screen.words("  ")?;
    push_done(screen, alloc, text, effect.wrote.as_slice())?;
    screen.end()
}

/// Returns whether the line with a number isn't understood or has to be run for real.
fn is_unknown(lines: &CaseLines, number: u32) -> bool
    ensures { result ≡ is_some (obstacle_at number lines.now) }
{
    match lines.at(number) {
        Some(line) => line.obstacle.is_some(),
        None => false,
    }
}

/// Appends a line for each edited line.
fn push_effects(
    screen: &mut Screen,
    alloc: Global,
    recording: &Recording,
    summary: &Summary,
) -> Result<(), NoMem>
    ensures { OnOk result (screen.new ≡ screen.old
        ++ flat_map (λ effect. effect_told recording.now summary.now.lines (effect_value effect))
        summary.now.effects.items) }
{
    for effect in &summary.effects {
        let is_unknown = is_unknown(&summary.lines, effect.number);
        push_effect(screen, alloc, recording, is_unknown, effect)?;
    }
    Ok(())
}

/// Appends what cancelled and replaced lines led to: an empty line, a head, and each of the lines.
pub(crate) fn push_causes(
    screen: &mut Screen,
    alloc: Global,
    recording: &Recording,
    summary: &Summary,
) -> Result<(), NoMem>
    ensures { OnOk result (screen.new ≡ screen.old ++ causes_told recording.now summary.now) }
{
    screen.end()?;
    screen.said(alloc, "CAUSES  ")?;
    screen.words("what each edited line led to: lines with another result, ")?;
    screen.words("run again alike, paths it wrote")?;
    screen.end()?;
    push_effects(screen, alloc, recording, summary)
}
