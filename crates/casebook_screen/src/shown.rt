//! What several sections show: names, paths, numbers and texts of lines.
ghost use Rattle.std.specs.Prelude.{◌≡◌, ◌++◌, ◌∷◌, [], IfOk, OnOk, map};
ghost use Rattle.std.specs.Option.{option_copied};
ghost use Rattle.retro_keep.specs.Recording.{noted_at};
ghost use Rattle.casebook_words.specs.Words.{path_words};
ghost use Rattle.casebook_screen.specs.Told.{is_observed, line_text, more_told, name_told};
ghost use Rattle.casebook_screen.specs.Told.{numbers_told, obstacle_told, path_told, paths_told, time_told};
ghost use Rattle.casebook_screen.specs.declared.piece.Piece.TheVariants.{Number};

use crate::NoMem;
use crate::names::Names;
use crate::screen::Screen;
use casebook_text::SafeLine;
use casebook_view::Obstacle;
use casebook_words::{obstacle_text, push_cut, push_path};
use retro_keep::{Noted, Recording};
use retro_tree::Path;
use std::alloc::Global;

/// How far the lines below a line's head are indented.
pub(crate) const INDENT: usize = 8;

/// The width of the first column of a summary.
pub(crate) const COUNT_WIDTH: usize = 7;

/// How many bytes of a line a summary shows.
pub(crate) const TEXT_LIMIT: usize = 59;

/// How many numbers of lines are shown.
const NUMBERS_SHOWN: usize = 8;

/// How many paths are shown.
const PATHS_SHOWN: usize = 2;

/// Returns a path as a line.
pub(crate) fn path_line(alloc: Global, path: &Path) -> Result<SafeLine, NoMem>
    ensures { IfOk result (λ line. line ≡ path_words path.now) }
{
    let mut line = SafeLine::new(alloc);
    push_path(alloc, &mut line, path)?;
    Ok(line)
}

/// Appends the number of a line, in the first column.
pub(crate) fn push_number(screen: &mut Screen, alloc: Global, number: u32) -> Result<(), NoMem>
    ensures { OnOk result (screen.new ≡ screen.old ++ Number number ∷ []) }
{
    screen.column(alloc, u64::from(number), COUNT_WIDTH)
}

/// Appends the name of a session, in a column.
pub(crate) fn push_name(
    screen: &mut Screen,
    alloc: Global,
    names: Names<'_>,
    session: u32,
) -> Result<(), NoMem>
    ensures { OnOk result (screen.new
        ≡ screen.old ++ name_told names.entry.labels.now session ∷ []) }
{
    let name = names.labels.name_of(alloc, session)?;
    screen.padded(name, names.width)
}

/// Appends a time after a space, if it is known.
pub(crate) fn push_time(screen: &mut Screen, time: SafeLine) -> Result<(), NoMem>
    ensures { OnOk result (screen.new ≡ screen.old ++ time_told time) }
{
    if time.as_str().is_empty() {
        return Ok(());
    }
    screen.words(" ")?;
    screen.text(time)
}

/// Returns whether an obstacle only says that the line stands as it was observed.
pub(crate) fn is_observed(obstacle: Obstacle) -> bool
    ensures { result ≡ is_observed obstacle }
{
    matches!(obstacle, Obstacle::Observed)
}

/// Appends a line with why a line isn't understood, if it isn't.
pub(crate) fn push_obstacle(
    screen: &mut Screen,
    alloc: Global,
    obstacle: Option<Obstacle>,
) -> Result<(), NoMem>
    ensures { OnOk result (screen.new ≡ screen.old ++ obstacle_told obstacle) }
{
    match obstacle {
        Some(obstacle) if !is_observed(obstacle) => {
            screen.spaces(INDENT)?;
            screen.words("unknown: ")?;
            screen.said(alloc, obstacle_text(obstacle))?;
            screen.end()
        }
        _ => Ok(()),
    }
}

/// Returns a line up to a limit, or nothing if there is no line.
fn cut_line(alloc: Global, noted: Option<&Noted>, limit: usize) -> Result<SafeLine, NoMem>
    ensures { IfOk result (λ line. line ≡ line_text limit (option_copied noted.entry)) }
{
    let mut line = SafeLine::new(alloc);
    if let Some(noted) = noted {
        push_cut(alloc, &mut line, noted.text.bytes(), limit)?;
    }
    Ok(line)
}

/// Returns the text of the line with a number, up to a limit.
pub(crate) fn command_line(
    alloc: Global,
    recording: &Recording,
    number: u32,
    limit: usize,
) -> Result<SafeLine, NoMem>
    ensures { IfOk result (λ line.
        line ≡ line_text limit (noted_at number recording.now.lines)) }
{
    cut_line(alloc, recording.run_of(number), limit)
}

/// Appends an ellipsis after a space, which says that there are more items.
fn push_more(screen: &mut Screen, alloc: Global) -> Result<(), NoMem>
    ensures { OnOk result (screen.new ≡ screen.old ++ more_told) }
{
    let mut line = SafeLine::new(alloc);
    line.push_ellipsis()?;
    screen.words(" ")?;
    screen.text(line)
}

/// Appends numbers, each after a space.
pub(crate) fn push_numbers(screen: &mut Screen, numbers: &[u32]) -> Result<(), NoMem>
    ensures { OnOk result (screen.new ≡ screen.old ++ map Number numbers.now) }
{
    for number in numbers {
        screen.words(" ")?;
        screen.number(u64::from(*number))?;
    }
    Ok(())
}

/// Appends the first numbers, and an ellipsis if there are more.
pub(crate) fn push_first_numbers(
    screen: &mut Screen,
    alloc: Global,
    numbers: &[u32],
) -> Result<(), NoMem>
    ensures { OnOk result (screen.new ≡ screen.old ++ numbers_told numbers.now) }
{
    if numbers.len() <= NUMBERS_SHOWN {
        return push_numbers(screen, numbers);
    }
    push_numbers(screen, &numbers[..NUMBERS_SHOWN])?;
    push_more(screen, alloc)
}

/// Appends paths, each after a space.
pub(crate) fn push_paths(screen: &mut Screen, alloc: Global, paths: &[Path]) -> Result<(), NoMem>
    ensures { OnOk result (screen.new ≡ screen.old ++ map path_told paths.now) }
{
    for path in paths {
        screen.words(" ")?;
        screen.text(path_line(alloc, path)?)?;
    }
    Ok(())
}

/// Appends the first paths, and an ellipsis if there are more.
pub(crate) fn push_first_paths(
    screen: &mut Screen,
    alloc: Global,
    paths: &[Path],
) -> Result<(), NoMem>
    ensures { OnOk result (screen.new ≡ screen.old ++ paths_told paths.now) }
{
    if paths.len() <= PATHS_SHOWN {
        return push_paths(screen, alloc, paths);
    }
    push_paths(screen, alloc, &paths[..PATHS_SHOWN])?;
    push_more(screen, alloc)
}
