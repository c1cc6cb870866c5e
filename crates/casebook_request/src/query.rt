//! Questions about documents.
ghost use Rattle.std.specs.Prelude.{◌≡◌, option_map};
ghost use Rattle.casebook_request.specs.Sources.{document_named, repair_sources, sources_of};
ghost use Rattle.casebook_request.specs.Views.{query_view, repair_view, sources_view};

use crate::lines_request::LinesRequest;
use crate::repair_request::{CatRequest, PageRequest, RepairRequest, ShowRequest};
use crate::sources::Sources;

/// A question about documents.
#[derive(Drop)]
pub enum Query<'a> {
    /// Which lines are in a log.
    Lines(LinesRequest<'a>),
    /// What a repair would do.
    Show(ShowRequest<'a>),
    /// What a repair would do, as a page.
    Page(PageRequest<'a>),
    /// What a repair would have in a file, or print in a line.
    Cat(CatRequest<'a>),
    /// What a repair would do to files, as a patch.
    Patch(RepairRequest<'a>),
    /// Whether the document with this name is a recording of its lines, or a script.
    Check(&'a str),
    /// Which log explains the case with this name.
    Log(&'a str),
}

/// Returns the name that is given after `@`.
fn document_named(given: &str) -> Option<&str>
    ensures { option_map (λ name. name.now) result ≡ document_named given.now }
{
    given.strip_prefix('@')
}

/// Returns the documents that a repair needs.
pub fn repair_sources<'a>(request: &RepairRequest<'a>) -> Sources<'a>
    ensures { sources_view result ≡ repair_sources (repair_view request.now) }
{
    Sources {
        log: request.log,
        list: document_named(request.cancel),
        about: request.about,
    }
}

impl<'a> Query<'a> {
    /// Returns the documents that it is about.
    pub fn sources(&self) -> Sources<'a>
        ensures { sources_view result ≡ sources_of (query_view self.now) }
    {
        match self {
            Query::Lines(request) => Sources {
                log: request.log,
                list: None,
                about: request.about,
            },
            Query::Show(request) => repair_sources(&request.repair),
            Query::Page(request) => repair_sources(&request.repair),
            Query::Cat(request) => repair_sources(&request.repair),
            Query::Patch(request) => repair_sources(request),
            Query::Check(log) => Sources {
                log,
                list: None,
                about: None,
            },
            Query::Log(case) => Sources {
                log: case,
                list: None,
                about: None,
            },
        }
    }
}
