//! Queries in words.
ghost use Rattle.std.specs.Prelude.{◌≡◌, ◌++◌, IsTrue, OnOk};
ghost use Rattle.std.specs.List.{list_all};
ghost use Rattle.casebook_text.specs.SafeText.{is_printable};
ghost use Rattle.casebook_words.specs.Words.{path_words, query_words};

use crate::NoMem;
use crate::answer_words::VALUE_LIMIT;
use crate::cut::push_cut;
use crate::path_words::push_path;
use casebook_text::SafeLine;
use retro_tree::{Ask, Path};
use std::alloc::Global;

/// Appends what is done with a path, and the path.
pub(crate) fn push_done(
    alloc: Global,
    line: &mut SafeLine,
    done: &str,
    path: &Path,
) -> Result<(), NoMem>
    requires { IsTrue (list_all is_printable done.now) }
    ensures { OnOk result (line.new ≡ line.old ++ (done.now ++ path_words path.now)) }
{
    line.push_ascii(done)?;
    push_path(alloc, line, path)
}

/// Appends a query in words. Sessions aren't named.
#[tactic(auto, unfolding(crate::specs::Words::query_words))]
pub fn push_query(alloc: Global, line: &mut SafeLine, ask: &Ask) -> Result<(), NoMem>
    ensures { OnOk result (line.new ≡ line.old ++ query_words ask.now) }
{
    match ask {
        Ask::Kind(path) => push_done(alloc, line, "looked at ", path),
        Ask::Bytes(path) => push_done(alloc, line, "read ", path),
        Ask::Names(path) => push_done(alloc, line, "listed ", path),
        Ask::CanWrite(path, _) => push_done(alloc, line, "could write ", path),
        Ask::User(name) => {
            line.push_ascii("looked up user ")?;
            push_cut(alloc, line, name.bytes(), VALUE_LIMIT)
        }
        Ask::VarOf(_, name) => {
            line.push_ascii("variable ")?;
            line.push_word(alloc, name.as_str().as_bytes())
        }
        Ask::CwdOf(_) => line.push_ascii("directory"),
        Ask::StatusOf(_) => line.push_ascii("status"),
    }
}
