//! Paths in words.
ghost use Rattle.std.specs.Prelude.{◌≡◌, ◌++◌, OnOk};
ghost use Rattle.casebook_words.specs.Words.{path_words};

use crate::NoMem;
use casebook_text::SafeLine;
use retro_tree::Path;
use std::alloc::Global;

/// Appends a path, the root as `/`. Spaces in names are shown by their code, so that a path can't
/// look like two.
#[tactic(auto, unfolding(crate::specs::Words::path_words))]
pub fn push_path(alloc: Global, line: &mut SafeLine, path: &Path) -> Result<(), NoMem>
    ensures { OnOk result (line.new ≡ line.old ++ path_words path.now) }
{
    if path.is_root() {
        return line.push_ascii("/");
    }
    line.push_word(alloc, path.as_str().as_bytes())
}
