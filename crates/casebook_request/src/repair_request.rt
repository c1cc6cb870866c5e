//! Requests for repairs.
use crate::rounds::Rounds;
use crate::shown::ShownPart;
use retro_keep::Edit;
use retro_tree::Path;

/// A request for a repair.
#[derive(Drop)]
pub struct RepairRequest<'a> {
    /// The name of the log.
    pub log: &'a str,
    /// The list of the lines that are cancelled. After `@` it is the name of a document with a
    /// list.
    pub cancel: &'a str,
    /// The edits of the lines whose text is replaced.
    pub replacements: Vec<Edit>,
    /// How lines are run ahead in parallel, if they are.
    pub rounds: Option<Rounds>,
    /// The name of the document with names and times, if one is given.
    pub about: Option<&'a str>,
}

/// A request to show a repair on a terminal.
#[derive(Drop)]
pub struct ShowRequest<'a> {
    /// The repair.
    pub repair: RepairRequest<'a>,
    /// What is shown of it.
    pub shown: ShownPart,
}

/// A request for the page of a repair.
#[derive(Drop)]
pub struct PageRequest<'a> {
    /// The repair.
    pub repair: RepairRequest<'a>,
    /// The title, if one is given. Otherwise it is the name of the log.
    pub title: Option<&'a str>,
    /// Whether untouched lines have rows also if there are many lines.
    pub all: bool,
}

/// Of what the bytes are written.
#[derive(Drop)]
pub enum BytesOf {
    /// The file at a path.
    File(Path),
    /// What the line with a number prints.
    Output(u32),
}

/// A request for bytes of a repair.
#[derive(Drop)]
pub struct CatRequest<'a> {
    /// The repair.
    pub repair: RepairRequest<'a>,
    /// Of what the bytes are written.
    pub bytes: BytesOf,
}
