//! What a repair leaked and tells, and why its lines are met.
use crate::words::push_item;
use casebook_cause::{Differences, first_failing_note, has_another_result, leaks, tellings};
use retro_history::History;
use retro_keep::{Noted, Recording};
use retro_redo::{Compensation, Repair};
use retro_rows::text;
use retro_tree::{Ask, NoMem, Note};
use std::alloc::Global;

/// Returns the numbers of compensations.
fn numbers_text(alloc: Global, compensations: &[Compensation<'_>]) -> Result<String, NoMem> {
    let mut out = String::new(alloc);
    for compensation in compensations {
        push_item(
            &mut out,
            " ",
            format!(in alloc; "{}", compensation.number)?.as_str(),
        )?;
    }
    Ok(out)
}

/// Returns the lines of a repair that leaked, or those that are told about.
pub fn compensated(
    alloc: Global,
    recorded: &Recording,
    repair: &Repair,
    which: &str,
) -> Result<String, NoMem> {
    let found = match which {
        "leaks" => leaks(alloc, recorded, repair)?,
        _ => tellings(alloc, recorded, repair)?,
    };
    numbers_text(alloc, found.as_slice())
}

/// A recording and its repaired one, with what differs between them and what the repaired one held.
#[derive(Clone, Copy, Drop)]
struct Sides<'h, 'r> {
    recorded: &'r Recording,
    repaired: &'r Recording,
    differences: &'h Differences<'r>,
    history: &'h History<'r>,
}

/// Returns the path of a query for a kind or for bytes, or `other`.
fn path_asked(ask: &Ask) -> &str {
    match ask {
        Ask::Kind(at) | Ask::Bytes(at) => at.as_str(),
        _ => "other",
    }
}

impl Sides<'_, '_> {
    /// Returns what the query of a line's note is about, and which line is the cause that it has
    /// another answer.
    fn note_text(self, alloc: Global, number: u32, note: Option<&Note>) -> Result<String, NoMem> {
        let Some(Note::Asked(ask, _)) = note else {
            return text(alloc, "no query");
        };
        match self.differences.cause_of(alloc, number, ask)? {
            Some(cause) => format!(in alloc; "{} by {cause}", path_asked(ask)),
            None => format!(in alloc; "{} by none", path_asked(ask)),
        }
    }

    /// Returns the first query of a line that has another answer in the repaired state, and its
    /// cause, or `holds`.
    fn failing_text(self, alloc: Global, number: u32, noted: &Noted) -> Result<String, NoMem> {
        match first_failing_note(alloc, &noted.notes, &self.history.at(number))? {
            Some(index) => self.note_text(alloc, number, noted.notes.as_slice().get(index)),
            None => text(alloc, "holds"),
        }
    }

    /// Returns whether a line has another result in the repaired recording.
    fn result_word(self, number: u32, old: &Noted) -> &'static str {
        match self.repaired.run_of(number) {
            Some(new) if has_another_result(old, new) => "another result",
            Some(_) => "same result",
            None => "cancelled",
        }
    }

    /// Returns whether a line has another result, and its first query with another answer.
    fn line_text(self, alloc: Global, number: u32, old: &Noted) -> Result<String, NoMem> {
        let failing = self.failing_text(alloc, number, old)?;
        format!(in alloc; "{}, {failing}", self.result_word(number, old))
    }

    /// Returns how a line is met.
    fn met(self, alloc: Global, number: u32) -> Result<String, NoMem> {
        match self.recorded.run_of(number) {
            Some(old) => self.line_text(alloc, number, old),
            None => text(alloc, "no such line"),
        }
    }
}

/// Returns how a line is met, by what the lines change otherwise.
fn met_by<'r>(
    alloc: Global,
    recorded: &'r Recording,
    repaired: &'r Recording,
    differences: &Differences<'r>,
    number: u32,
) -> Result<String, NoMem> {
    let history = History::of(alloc, repaired)?;
    let sides = Sides {
        recorded,
        repaired,
        differences,
        history: &history,
    };
    sides.met(alloc, number)
}

/// Returns whether a line has another result in the repaired recording, and its first query that
/// has another answer there with the line that is the cause.
pub fn met(
    alloc: Global,
    recorded: &Recording,
    repaired: &Recording,
    number: u32,
) -> Result<String, NoMem> {
    let differences = Differences::of(alloc, recorded, repaired)?;
    met_by(alloc, recorded, repaired, &differences, number)
}
