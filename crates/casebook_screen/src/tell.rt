//! Whom to tell about what, and who looked at what.
ghost use Rattle.std.specs.Prelude.{◌≡◌, ◌++◌, OnOk};
ghost use Rattle.casebook_summary.specs.Groups.{group_value};
ghost use Rattle.casebook_screen.specs.Told.{group_told, groups_told, looked_told, tell_told};

use crate::NoMem;
use crate::names::Names;
use crate::screen::Screen;
use crate::shown::{push_first_numbers, push_name};
use casebook_summary::{Group, Summary, sessions_told, subject_line};
use std::alloc::Global;

/// How far groups are indented.
const INDENT: usize = 2;

/// The width of the column of subjects.
const SUBJECT_WIDTH: usize = 35;

/// The width of the column of counts.
const TIMES_WIDTH: usize = 2;

/// Appends what one session is told about one subject.
fn push_group(
    screen: &mut Screen,
    alloc: Global,
    names: Names<'_>,
    group: &Group,
) -> Result<(), NoMem>
    ensures { OnOk result (screen.new
        ≡ screen.old ++ group_told names.entry.labels.now (group_value group.now)) }
{
    screen.spaces(INDENT)?;
    push_name(screen, alloc, names, group.session)?;
    screen.words(" ")?;
    screen.padded(subject_line(alloc, &group.subject)?, SUBJECT_WIDTH)?;
    screen.words(" ")?;
    screen.column(alloc, group.lines.len() as u64, TIMES_WIDTH)?;
    screen.words("x  lines")?;
    push_first_numbers(screen, alloc, group.lines.as_slice())?;
    screen.end()
}

/// Appends a line for each group.
fn push_groups(
    screen: &mut Screen,
    alloc: Global,
    names: Names<'_>,
    groups: &[Group],
) -> Result<(), NoMem>
    ensures { OnOk result (screen.new
        ≡ screen.old ++ groups_told names.entry.labels.now groups.now) }
{
    for group in groups {
        push_group(screen, alloc, names, group)?;
    }
    Ok(())
}

/// Appends whom to tell about what: an empty line, how many sessions and screens, and each group.
pub(crate) fn push_tell(
    screen: &mut Screen,
    alloc: Global,
    names: Names<'_>,
    summary: &Summary,
) -> Result<(), NoMem>
    ensures { OnOk result (screen.new ≡ screen.old ++ tell_told names.entry.labels.now
        summary.now.notices.items summary.now.told.items) }
{
    let sessions = sessions_told(alloc, summary.notices.as_slice())?;
    screen.end()?;
    screen.said(alloc, "TELL  ")?;
    screen.count(sessions.len(), "session")?;
    screen.words(" about ")?;
    screen.count(summary.notices.len(), "screen")?;
    screen.end()?;
    push_groups(screen, alloc, names, summary.told.as_slice())
}

/// Appends who looked at what by lines that have to be run for real: an empty line, how many
/// sessions and lines, and each group; or nothing if nobody did.
pub(crate) fn push_looked(
    screen: &mut Screen,
    alloc: Global,
    names: Names<'_>,
    summary: &Summary,
) -> Result<(), NoMem>
    ensures { OnOk result (screen.new ≡ screen.old ++ looked_told names.entry.labels.now
        summary.now.looks.items summary.now.looked.items) }
{
    if summary.looked.is_empty() {
        return Ok(());
    }
    let sessions = sessions_told(alloc, summary.looks.as_slice())?;
    screen.end()?;
    screen.said(alloc, "LOOKED  ")?;
    screen.count(sessions.len(), "session")?;
    screen.words(" by ")?;
    screen.count(summary.looks.len(), "observed line")?;
    screen.words(", at what would be another")?;
    screen.end()?;
    push_groups(screen, alloc, names, summary.looked.as_slice())
}
