//! Unified diffs of what a repair changes, as a terminal shows them.
ghost use Rattle.std.specs.Prelude.{◌≡◌, ◌++◌, ◌||◌, IfOk, IsTrue};
ghost use Rattle.std.specs.List.{list_all};
ghost use Rattle.std.specs.Option.{option_copied};
ghost use Rattle.retro_redo.specs.Moments.{compensation_view};
ghost use Rattle.casebook_text.specs.SafeText.{is_printable};
ghost use Rattle.casebook_screen.specs.Diffs.{AreDiffs, AreParts, IsDiff, IsOutputDiff};
ghost use Rattle.casebook_screen.specs.Diffs.{IsPathDiff, has_file, is_file, output_name, side_name};

use crate::NoMem;
use crate::unified::unified_lines;
use casebook_summary::Restoration;
use casebook_text::SafeLine;
use casebook_view::Case;
use casebook_words::{FileLines, push_path};
use retro_redo::Compensation;
use retro_tree::{Entry, Path, Tree};
use std::alloc::Global;

/// Returns a sign and a name.
fn name_line(alloc: Global, sign: &str, name: &SafeLine) -> Result<SafeLine, NoMem>
    requires { IsTrue (list_all is_printable sign.now) }
    ensures { IfOk result (λ line. line ≡ sign.now ++ name.now) }
{
    let mut line = SafeLine::new(alloc);
    line.push_ascii(sign)?;
    line.push_line(name)?;
    Ok(line)
}

/// Returns a unified diff of two texts with these names.
fn named_diff(
    alloc: Global,
    old: &SafeLine,
    new: &SafeLine,
    file: &FileLines,
) -> Result<Vec<SafeLine>, NoMem>
    ensures { IfOk result (λ lines. IsDiff old.now new.now
        file.now.old.items file.now.new.items lines.items) }
{
    let mut lines = Vec::new(alloc);
    lines.push(name_line(alloc, "--- ", old)?)?;
    lines.push(name_line(alloc, "+++ ", new)?)?;
    lines.append(&mut unified_lines(alloc, file)?)?;
    Ok(lines)
}

/// Returns whether an entry is a file.
fn is_file(entry: Option<&Entry>) -> bool
    ensures { result ≡ is_file (option_copied entry.entry) }
{
    matches!(entry, Some(Entry::File(_)))
}

/// Returns whether one of two entries at least is a file.
fn has_file(before: Option<&Entry>, after: Option<&Entry>) -> bool
    ensures { result ≡ has_file (option_copied before.entry) (option_copied after.entry) }
{
    is_file(before) || is_file(after)
}

/// Returns the name of the file at a path, or `/dev/null` if no file is there.
fn side_name(alloc: Global, path: &Path, entry: Option<&Entry>) -> Result<SafeLine, NoMem>
    ensures { IfOk result (λ name. name ≡ side_name path.now (option_copied entry.entry)) }
{
    let mut name = SafeLine::new(alloc);
    if is_file(entry) {
        push_path(alloc, &mut name, path)?;
    } else {
        name.push_ascii("/dev/null")?;
    }
    Ok(name)
}

/// Returns the diff of the files at a path in two trees, or nothing if no file is there.
fn path_diff(
    alloc: Global,
    before: &Tree,
    after: &Tree,
    path: &Path,
) -> Result<Vec<SafeLine>, NoMem>
    ensures { IfOk result (λ lines. IsPathDiff before.now after.now path.now lines.items) }
{
    if !has_file(before.get(path), after.get(path)) {
        return Ok(Vec::new(alloc));
    }
    let old = side_name(alloc, path, before.get(path))?;
    let new = side_name(alloc, path, after.get(path))?;
    let file = FileLines::of(alloc, before, after, path)?;
    named_diff(alloc, &old, &new, &file)
}

/// Returns the diffs of the files at paths in two trees.
fn path_diffs(
    alloc: Global,
    before: &Tree,
    after: &Tree,
    restorations: &[Restoration],
) -> Result<Vec<SafeLine>, NoMem>
    ensures { IfOk result (λ lines. AreParts
        (λ r. IsPathDiff before.now after.now r.path) restorations.now lines.items) }
{
    let mut lines = Vec::new(alloc);
    for restoration in restorations {
        lines.append(&mut path_diff(alloc, before, after, &restoration.path)?)?;
    }
    Ok(lines)
}

/// Returns what the output of a line is called.
fn output_name(alloc: Global, number: u32) -> Result<SafeLine, NoMem>
    ensures { IfOk result (λ name. name ≡ output_name number) }
{
    let mut name = SafeLine::new(alloc);
    name.push_ascii("output of line ")?;
    name.push_number(alloc, u64::from(number))?;
    Ok(name)
}

/// Returns the diff of what a line printed and prints.
fn output_diff(alloc: Global, compensation: &Compensation<'_>) -> Result<Vec<SafeLine>, NoMem>
    ensures { IfOk result (λ lines.
        IsOutputDiff (compensation_view compensation.entry.now) lines.items) }
{
    let name = output_name(alloc, compensation.number)?;
    let file = FileLines::of_bytes(alloc, compensation.before, compensation.now)?;
    named_diff(alloc, &name, &name, &file)
}

/// Returns the diffs of what lines printed and print.
fn output_diffs(alloc: Global, compensations: &[Compensation<'_>]) -> Result<Vec<SafeLine>, NoMem>
    ensures { IfOk result (λ lines. AreParts (λ c. IsOutputDiff (compensation_view c))
        compensations.now lines.items) }
{
    let mut lines = Vec::new(alloc);
    for compensation in compensations {
        lines.append(&mut output_diff(alloc, compensation)?)?;
    }
    Ok(lines)
}

/// Returns unified diffs: of the files at the paths to restore, and then of each output that differs.
/// A path without a file before and after, as that of a directory, has none. The lines of texts are
/// compared as they are shown.
pub fn diff_lines(
    alloc: Global,
    case: &Case<'_>,
    restorations: &[Restoration],
) -> Result<Vec<SafeLine>, NoMem>
    ensures { IfOk result (λ lines. AreDiffs
        case.now.recording case.now.repair restorations.now lines.items) }
{
    let repair = case.repair();
    let before = case.recording().last().tree();
    let after = repair.state().tree();
    let compensations = repair.compensations(alloc, case.recording())?;
    let mut lines = Vec::new(alloc);
    lines.push(SafeLine::new(alloc))?;
    lines.append(&mut path_diffs(alloc, before, after, restorations)?)?;
    lines.append(&mut output_diffs(alloc, &compensations)?)?;
    Ok(lines)
}
