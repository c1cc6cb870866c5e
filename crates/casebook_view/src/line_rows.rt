//! The rows of a recording.
ghost use Rattle.std.specs.Prelude.{◌≡◌, ◌++◌, ◌∷◌, [], List, IfOk, OnOk, map};
ghost use Rattle.casebook_profile.specs.declared.unknown_line.UnknownLine.{UnknownLine};
ghost use Rattle.casebook_view.specs.Filters.{filters_of};
ghost use Rattle.casebook_view.specs.Rows.{row_value, row_with, rows_among, rows_of};
ghost use Rattle.casebook_view.specs.Sources.{source_view};
ghost use Rattle.casebook_view.specs.Obstacles.{AreObstacles};

use crate::filters::Filters;
use crate::line_row::LineRow;
use crate::note_paths::{read_paths, writes_of};
use crate::observed::unknown_of;
use crate::obstacles::Obstacles;
use crate::source::Source;
use casebook_profile::Obstacle;
use retro_keep::{Noted, Recording};
use retro_tree::NoMem;
use std::alloc::Global;

/// Returns the row of a line with an obstacle.
fn row_of(
    alloc: Global,
    line: &(u32, Noted),
    obstacle: Option<Obstacle>,
) -> Result<LineRow<'_>, NoMem>
    ensures { IfOk result (λ row. row_value row ≡ row_with obstacle line.entry.now) }
{
    let noted = &line.1;
    let notes = noted.notes.as_slice();
    Ok(LineRow {
        number: line.0,
        session: noted.sid,
        text: &noted.text,
        read: read_paths(alloc, notes, obstacle == Some(Obstacle::Observed))?,
        wrote: writes_of(alloc, notes)?,
        obstacle,
        output: &noted.output,
    })
}

/// Appends the row of a line, if the line passes the filters.
fn push_row<'a>(
    alloc: Global,
    found: &mut Vec<LineRow<'a>>,
    filters: &mut Filters<'_>,
    obstacles: &Obstacles,
    line: &'a (u32, Noted),
) -> Result<(), NoMem>
    ensures rows { (unknown : List UnknownLine) → AreObstacles unknown obstacles.now
        → OnOk result (map row_value found.new.items ≡ map row_value found.old.items
        ++ rows_among (filters_of filters.old) unknown (line.now ∷ [])) }
    ensures same { filters_of filters.new ≡ filters_of filters.old }
{
    let obstacle = obstacles.at(line.0);
    if filters.passes(line, obstacle.is_none()) {
        found.push(row_of(alloc, line, obstacle)?)?;
    }
    Ok(())
}

/// Returns the rows of the lines of a recording that pass the filters, in order. Of lines that a
/// recorder saw, those that stand as they were observed have the obstacle `Observed`, and count as
/// lines that aren't understood; the others have none, and no text is tested.
pub fn rows<'a>(
    alloc: Global,
    recording: &'a Recording,
    source: Source<'_>,
    filters: &mut Filters<'_>,
) -> Result<Vec<LineRow<'a>>, NoMem>
    ensures { IfOk result (λ found. map row_value found.items
        ≡ rows_of (source_view source.entry) (filters_of filters.old) recording.now) }
{
    let lines = recording.lines();
    let unknown = unknown_of(alloc, recording, source)?;
    let obstacles = Obstacles::of(alloc, unknown.as_slice())?;
    let mut found = Vec::new(alloc);
    for line in lines {
        push_row(alloc, &mut found, filters, &obstacles, line)?;
    }
    Ok(found)
}
