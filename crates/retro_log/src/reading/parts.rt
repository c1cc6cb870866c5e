//! What is read of a document's object, a member at a time.
ghost use Rattle.std.specs.Prelude.{◌≡◌, None, true};
ghost use Rattle.retro_log.specs.inner.Parts.{part_at, parts_fit};
ghost use Rattle.retro_log.specs.inner.PartsView.{parts_view};

use retro_json::{OrRefusal, Part, Refusal, Row};
use retro_tree::{Entry, Path};

/// The parts of a document, each as its last member was read: its value, or why it is refused.
#[derive(Drop)]
pub struct Parts<L> {
    /// Whether each key is `from` or one that the document's kind has.
    pub is_known: bool,
    /// The version's number.
    pub version: Option<OrRefusal<u64>>,
    /// The line at which a log begins.
    pub from: Option<OrRefusal<u32>>,
    /// The rows of the tree.
    pub tree: Option<OrRefusal<Vec<(Path, Entry)>>>,
    /// The rows of the sessions.
    pub sessions: Option<OrRefusal<Vec<Row>>>,
    /// The lines.
    pub lines: Option<OrRefusal<Vec<L>>>,
}

impl<L> Parts<L> {
    /// Returns the parts of an object without members.
    pub fn new() -> Parts<L>
        ensures { result ≡ record {
          is_known = true;
          version = None;
          from = None;
          tree = None;
          sessions = None;
          lines = None;
        } }
    {
        Parts {
            is_known: true,
            version: None,
            from: None,
            tree: None,
            sessions: None,
            lines: None,
        }
    }

    /// Returns `Ok` if each key is known and each key that all versions have is there. Refuses an
    /// unknown key, and then a key that is missing.
    pub fn fit(&self) -> OrRefusal<()>
        ensures { result ≡ parts_fit (parts_view self.now) }
    {
        if !self.is_known {
            return Err(Refusal::UnknownKey);
        }
        if self.version.is_some()
            && self.tree.is_some()
            && self.sessions.is_some()
            && self.lines.is_some()
        {
            Ok(())
        } else {
            Err(Refusal::WrongShape(Part::Document))
        }
    }
}

/// Returns a part, or why it is refused. Refuses a document that lacks it.
pub fn part_at<T: Drop>(part: Option<OrRefusal<T>>) -> OrRefusal<T>
    ensures { result ≡ part_at part }
{
    match part {
        Some(part) => part,
        None => Err(Refusal::WrongShape(Part::Document)),
    }
}
