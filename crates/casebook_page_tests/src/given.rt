//! Pages of scripts with cancelled lines.
use casebook_about::Labels;
use casebook_page::{Contents, page};
use casebook_summary::Summary;
use casebook_view::{Case, Source};
use retro_keep::{Edit, Recording, keep_alone};
use retro_log::read_script;
use retro_redo::{Repair, repair_alone};
use retro_rows::fail;
use std::alloc::Global;
use std::test::Fail;

/// What a page is made from.
#[derive(Drop, Clone, Copy)]
pub(crate) struct Given<'a> {
    /// The script.
    pub(crate) script: &'a str,
    /// The numbers of the cancelled lines.
    pub(crate) cancelled: &'a [u32],
    /// The names of sessions.
    pub(crate) names: &'a [(u32, &'a str)],
    /// The title.
    pub(crate) title: &'a str,
    /// Whether untouched lines have rows also if there are many lines.
    pub(crate) shows_all: bool,
    /// Where the lines come from.
    pub(crate) source: Source<'a>,
    /// Whether the log is as its lines run.
    pub(crate) is_recording: bool,
}

/// Returns the recording of a script.
fn recording_of(alloc: Global, script: &str) -> Result<Recording, Fail> {
    match read_script(alloc, script.as_bytes()) {
        Ok(script) => Ok(keep_alone(alloc, &script)?),
        Err(_) => fail("the script is refused"),
    }
}

/// Returns the edits that cancel some lines.
fn edits_of(alloc: Global, cancelled: &[u32]) -> Result<Vec<Edit>, Fail> {
    let mut edits = Vec::new(alloc);
    for number in cancelled {
        edits.push(Edit::Cancel(*number))?;
    }
    Ok(edits)
}

/// Returns the repair by edits.
fn repair_of(alloc: Global, recording: &Recording, edits: &[Edit]) -> Result<Repair, Fail> {
    match repair_alone(alloc, recording, edits) {
        Ok(repair) => Ok(repair),
        Err(_) => fail("the edits are refused"),
    }
}

/// Returns labels with these names of sessions.
fn labels_of(alloc: Global, names: &[(u32, &str)]) -> Result<Labels, Fail> {
    let mut labels = Labels::none(alloc);
    for (session, name) in names {
        labels.add_name(*session, String::from_str(alloc, *name)?)?;
    }
    Ok(labels)
}

/// Returns the page of a repair.
fn page_of_case(alloc: Global, case: &Case<'_>, given: Given<'_>) -> Result<String, Fail> {
    let summary = Summary::of(alloc, case, given.is_recording)?;
    let labels = labels_of(alloc, given.names)?;
    let contents = Contents {
        case,
        summary: &summary,
        labels: &labels,
        title: given.title,
        shows_all: given.shows_all,
    };
    Ok(page(alloc, contents)?)
}

/// Returns the page of a script with some lines edited, whatever the given cancelled lines are.
pub(crate) fn page_by<'g>(
    alloc: Global,
    given: Given<'g>,
    edits: &'g [Edit],
) -> Result<String, Fail> {
    let recording = recording_of(alloc, given.script)?;
    let repair = repair_of(alloc, &recording, edits)?;
    let case = Case::of(alloc, &recording, &repair, edits, given.source)?;
    page_of_case(alloc, &case, given)
}

/// Returns the page of a script with some lines cancelled.
pub(crate) fn page_of(alloc: Global, given: Given<'_>) -> Result<String, Fail> {
    let edits = edits_of(alloc, given.cancelled)?;
    page_by(alloc, given, edits.as_slice())
}
