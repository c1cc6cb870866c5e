//! The section of cancelled and replaced lines: what each led to, and what it showed.
ghost use Rattle.std.specs.Prelude.{◌≡◌, ◌++◌, IsTrue, OnOk, Some, flat_map, length, map};
ghost use Rattle.std.specs.Option.{option_copied};
ghost use Rattle.casebook_summary.specs.Effects.{effect_value};
ghost use Rattle.casebook_page.specs.Told.{detail_told, effect_told, effects_told, inside_told, leak_told};
ghost use Rattle.casebook_page.specs.Told.{leaked_told, led_count, led_told, link_of, path_told};
ghost use Rattle.casebook_html.specs.Page.{is_words};
ghost use Rattle.casebook_html.specs.declared.piece.Piece.TheVariants.{Link};
ghost use Rattle.casebook_page.specs.Views.{contents_view};

use crate::NoMem;
use crate::contents::Contents;
use crate::pair::push_output;
use crate::shown::{
    push_command, push_fated_links, push_link, push_none, push_owner, push_paths, push_sign,
};
use casebook_html::{Html, Tag};
use casebook_summary::Effect;
use casebook_view::{CaseLine, Fate, Obstacle, Source};
use retro_keep::Noted;
use retro_tree::Path;
use std::alloc::Global;

/// Returns the greatest number of lines that one line led to.
fn most_led(effects: &[Effect]) -> usize {
    let mut most = 0_usize;
    for effect in effects {
        most = most.max(effect.led.len());
    }
    most
}

/// Returns how many percent a count is of another one, or 0 if that is 0.
fn percent(count: usize, whole: usize) -> usize {
    if whole == 0 {
        return 0;
    }
    count.saturating_mul(100) / whole
}

/// Appends how many lines a line led to, with a bar that compares it with the line that led to the
/// most. A line that led to none has no bar.
fn push_led(html: &mut Html, effect: &Effect, most: usize) -> Result<(), NoMem>
    ensures { OnOk result (html.new ≡ html.old ++ led_count (length effect.now.led.items)) }
{
    let count = effect.led.len();
    if count == 0 {
        return Ok(());
    }
    let changed = percent(effect.count(Fate::Changed), most) as u64;
    let alike = percent(effect.count(Fate::Alike), most) as u64;
    html.bar(changed, alike)?;
    html.count(count, "line")
}

/// Appends that it isn't known how many lines a line led to, since the line wasn't understood or has
/// to be run for real. Of a machine's line it is known what it did, but maybe not what it would do.
fn push_unknown(html: &mut Html, source: Source<'_>, obstacle: Obstacle) -> Result<(), NoMem>
    ensures { OnOk result (html.new ≡ html.old ++ led_told (Some obstacle) 0) }
{
    push_sign(html, obstacle)?;
    match source {
        Source::Played => html.words("what it did isn't known"),
        Source::Seen(_) => html.words("what it would do isn't known"),
    }
}

/// Appends how many lines a line led to, or that it isn't known.
fn push_known(
    html: &mut Html,
    source: Source<'_>,
    obstacle: Option<Obstacle>,
    effect: &Effect,
    most: usize,
) -> Result<(), NoMem>
    ensures { OnOk result (html.new
        ≡ html.old ++ led_told obstacle (length effect.now.led.items)) }
{
    match obstacle {
        Some(obstacle) => push_unknown(html, source, obstacle),
        None => push_led(html, effect, most),
    }
}

/// Appends how many bytes a line showed, unless it showed none.
fn push_leaked(html: &mut Html, bytes: usize) -> Result<(), NoMem>
    ensures { OnOk result (html.new ≡ html.old ++ leaked_told bytes) }
{
    if bytes == 0 {
        return Ok(());
    }
    html.sign(Tag::Leak)?;
    html.count(bytes, "byte")?;
    html.words(" seen")?;
    html.fixed(Tag::LeakEnd)
}

/// Appends that it isn't recorded what a line showed, if it is cancelled and was observed.
fn push_unshown(html: &mut Html, line: &CaseLine) -> Result<(), NoMem>
    ensures { OnOk result (html.new ≡ html.old) }
{
    if line.fate == Fate::Cancelled && line.is_observed {
        html.words(" what it showed isn't recorded")?;
    }
    Ok(())
}

/// Appends how many bytes a line showed, if it is cancelled and understood, and showed some. What an
/// observed line showed isn't recorded.
fn push_leak(html: &mut Html, line: Option<&CaseLine>, noted: Option<&Noted>) -> Result<(), NoMem>
    ensures { OnOk result (html.new ≡ html.old
        ++ leak_told (option_copied line.entry) (option_copied noted.entry)) }
{
    let (Some(line), Some(noted)) = (line, noted) else {
        return Ok(());
    };
    if line.fate == Fate::Cancelled && line.obstacle.is_none() {
        push_leaked(html, noted.output.as_slice().len())?;
    }
    push_unshown(html, line)
}

/// Appends the paths that a line read or wrote, as a word says, unless there are none.
fn push_touched(
    html: &mut Html,
    alloc: Global,
    word: &'static str,
    paths: &[Path],
) -> Result<(), NoMem>
    requires { IsTrue (is_words word.now) }
    ensures { OnOk result (html.new ≡ html.old ++ map path_told paths.now) }
{
    if paths.is_empty() {
        return Ok(());
    }
    html.fixed(Tag::Small)?;
    html.words(word)?;
    push_paths(html, alloc, paths)?;
    html.fixed(Tag::ParagraphEnd)
}

/// Appends links to the lines that are run again because of a line, unless there are none.
fn push_then(html: &mut Html, lines: &[CaseLine]) -> Result<(), NoMem>
    ensures { OnOk result (html.new
        ≡ html.old ++ map (λ line. Link (link_of line.fate) line.number) lines.now) }
{
    if lines.is_empty() {
        return Ok(());
    }
    html.fixed(Tag::Small)?;
    html.words("then run again:")?;
    push_fated_links(html, lines)?;
    html.fixed(Tag::ParagraphEnd)
}

/// Appends what the row of a line has inside: what it read, wrote, led to and printed.
fn push_inside(
    html: &mut Html,
    alloc: Global,
    contents: Contents<'_, '_>,
    effect: &Effect,
) -> Result<(), NoMem>
    ensures { OnOk result (html.new ≡ html.old ++ inside_told (effect_value effect.now)) }
{
    push_touched(html, alloc, "read ", effect.read.as_slice())?;
    push_touched(html, alloc, "wrote ", effect.wrote.as_slice())?;
    push_then(html, effect.led.as_slice())?;
    push_output(html, alloc, contents.recorded_output(effect.number))
}

/// Appends what the closed row of a line says of what it led to and showed.
fn push_detail(
    html: &mut Html,
    contents: Contents<'_, '_>,
    effect: &Effect,
    most: usize,
) -> Result<(), NoMem>
    ensures { OnOk result (html.new ≡ html.old
        ++ detail_told (contents_view contents.entry) (effect_value effect.now)) }
{
    let number = effect.number;
    let line = contents.summary.lines.at(number);
    let source = contents.case.source();
    push_known(html, source, contents.obstacle_of(number), effect, most)?;
    push_leak(html, line, contents.case.recorded(number))
}

/// Appends the row of a cancelled or replaced line.
fn push_effect(
    html: &mut Html,
    alloc: Global,
    contents: Contents<'_, '_>,
    effect: &Effect,
    most: usize,
) -> Result<(), NoMem>
    ensures { OnOk result (html.new ≡ html.old
        ++ effect_told (contents_view contents.entry) (effect_value effect.now)) }
{
    html.fixed(Tag::Effect)?;
    push_link(html, effect.number)?;
    html.fixed(Tag::EffectName)?;
    push_owner(html, alloc, contents, effect.number)?;
    html.fixed(Tag::EffectCode)?;
    push_command(html, alloc, contents.case, effect.number)?;
    html.fixed(Tag::RowDetail)?;
    push_detail(html, contents, effect, most)?;
    html.fixed(Tag::RowBody)?;
    push_inside(html, alloc, contents, effect)?;
    html.fixed(Tag::DetailsEnd)
}

/// Appends the rows of cancelled and replaced lines.
fn push_effects(html: &mut Html, alloc: Global, contents: Contents<'_, '_>) -> Result<(), NoMem>
    ensures { OnOk result (html.new ≡ html.old
        ++ flat_map (λ effect. effect_told (contents_view contents.entry) (effect_value effect))
        contents.entry.summary.now.effects.items) }
{
    let most = most_led(contents.summary.effects.as_slice());
    for effect in &contents.summary.effects {
        push_effect(html, alloc, contents, effect, most)?;
    }
    Ok(())
}

/// Appends the section of cancelled and replaced lines.
pub(crate) fn push_cancelled(
    html: &mut Html,
    alloc: Global,
    contents: Contents<'_, '_>,
) -> Result<(), NoMem>
    ensures { OnOk result (html.new ≡ html.old ++ effects_told (contents_view contents.entry)) }
{
    html.sign(Tag::Cancelled)?;
    push_effects(html, alloc, contents)?;
    push_none(html, contents.summary.effects.len())?;
    html.fixed(Tag::SectionEnd)
}
