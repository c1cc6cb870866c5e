//! What a repair lends for guesses, and guesses made with it.
ghost use Rattle.std.specs.Prelude.{◌≡◌, Some};
ghost use Rattle.retro_redo.specs.Progress.{next_number};

use crate::steps::{overlay_text, settle_below};
use retro_keep::Edit;
use retro_redo::{Ground, Repairer};
use retro_rows::{fail, path, text, utf8, value_text};
use retro_shell::{Run, run_line};
use retro_tree::{Answer, Ask, Listing, NoMem, Path, Value, View};
use std::alloc::Global;
use std::test::Fail;

/// Returns the names of a listing as a text.
fn listing_text(alloc: Global, listing: &Listing) -> Result<String, NoMem> {
    let mut out = text(alloc, "with")?;
    for name in listing.names() {
        out.push(' ')?;
        out.push_str(name.as_str())?;
    }
    Ok(out)
}

/// Returns the node at a path in a view, with the names of its children.
fn node_text<V: View>(alloc: Global, view: &V, path: &Path) -> Result<String, Fail> {
    let Answer::Bytes(node) = view.answer(alloc, &Ask::Bytes(path.copy()?))? else {
        return fail("another answer");
    };
    let mut out = value_text(alloc, &Value::Node(node))?;
    out.push(' ')?;
    out.push_str(&listing_text(alloc, &view.children(alloc, path)?)?)?;
    Ok(out)
}

/// Returns the node at a path in the combined state before a line, with the names of its children.
pub fn shown(
    alloc: Global,
    repairer: &mut Repairer<'_, '_, '_>,
    from: u32,
    number: u32,
    at: &str,
) -> Result<String, Fail> {
    settle_below(alloc, repairer, from)?;
    node_text(alloc, &repairer.ground().view(number), &path(alloc, at)?)
}

/// Returns the overlay of a ground, how many lines its recording has, which lines its history says
/// wrote a path, and whether the line with a number is edited.
fn ground_text(
    alloc: Global,
    ground: &Ground<'_, '_, '_>,
    number: u32,
    at: &str,
) -> Result<String, Fail> {
    let overlay = overlay_text(alloc, ground.overlay())?;
    let lines = ground.recording().lines().len();
    let cell = retro_tree::Cell::At(path(alloc, at)?);
    let mut out = format!(in alloc; "{overlay} {lines} lines, written by")?;
    for writer in ground.history().written_by(&cell) {
        out.push_str(&format!(in alloc; " {writer}")?)?;
    }
    match ground.edits().get(number) {
        Some(Edit::Cancel(_)) => out.push_str(", cancelled")?,
        Some(Edit::Replace(_, _)) => out.push_str(", replaced")?,
        None => {}
    }
    Ok(out)
}

/// Returns what the ground before a line lends.
pub fn lent(
    alloc: Global,
    repairer: &mut Repairer<'_, '_, '_>,
    from: u32,
    at: &str,
) -> Result<String, Fail> {
    settle_below(alloc, repairer, from)?;
    ground_text(alloc, &repairer.ground(), from, at)
}

/// Returns a guess of a line.
fn guess(alloc: Global, ground: &Ground<'_, '_, '_>, number: u32) -> Result<Run, Fail> {
    match ground.recording().run_of(number) {
        Some(noted) => {
            let view = ground.view(number);
            let edited = ground.edits().text_run(number, &noted.text);
            let text = edited.unwrap_or(&noted.text);
            Ok(run_line(alloc, &view, noted.sid, text.as_str())?)
        }
        None => fail("no line"),
    }
}

/// Returns what a run printed, and whether it fits at its turn.
fn fit_text(
    alloc: Global,
    repairer: &Repairer<'_, '_, '_>,
    number: u32,
    run: &Run,
) -> Result<String, Fail>
    requires { next_number repairer.now ≡ Some number }
{
    let fits = repairer.fits(alloc, number, run)?;
    let mut out = text(alloc, if fits { "fits: " } else { "no fit: " })?;
    out.push_str(utf8(run.output().as_slice())?)?;
    Ok(out)
}

/// Returns what a guess of a line prints, made on the ground before another line, and whether it
/// fits at its turn.
pub fn guessed(
    alloc: Global,
    repairer: &mut Repairer<'_, '_, '_>,
    from: u32,
    number: u32,
) -> Result<String, Fail> {
    settle_below(alloc, repairer, from)?;
    let run = guess(alloc, &repairer.ground(), number)?;
    settle_below(alloc, repairer, number)?;
    match repairer.next() {
        Some(next) if next == number => fit_text(alloc, repairer, next, &run),
        _ => fail("another line"),
    }
}

/// Returns the numbers of the lines up to an index that are edited or use a cell in which the
/// states differ before a line.
pub fn stops_until(
    alloc: Global,
    repairer: &mut Repairer<'_, '_, '_>,
    from: u32,
    end: u32,
) -> Result<String, Fail> {
    settle_below(alloc, repairer, from)?;
    let end = end as usize;
    if end > repairer.ground().recording().lines().len() {
        return fail("no such index");
    }
    let mut out = text(alloc, "lines")?;
    for number in repairer.stops_until(alloc, end)?.iter() {
        out.push_str(&format!(in alloc; " {number}")?)?;
    }
    Ok(out)
}
