//! The paths that the texts name which a line read.
ghost use Rattle.std.specs.Prelude.{◌≡◌, ◌++◌, IfOk, filter, map};
ghost use Rattle.std.specs.List.{filter_map};
ghost use Rattle.casebook_needs.specs.Named.{named_path};
ghost use Rattle.casebook_needs.specs.Needs.{has_slash, is_script, paths_in_node, script_paths};

use crate::NoMem;
use crate::named::{has_nul, named_path};
use crate::words::words_of;
use retro_path::Path;
use retro_tree::Node;
use std::alloc::Global;

/// The maximum size of a file that is searched for paths, in bytes.
pub const SCRIPT_LIMIT: usize = 65_536;

/// Returns whether the bytes of a file are searched for paths: they are within the limit, and have
/// no NUL.
fn is_script(bytes: &[u8]) -> bool
    ensures { result ≡ is_script bytes.now }
{
    bytes.len() <= SCRIPT_LIMIT && !has_nul(bytes)
}

/// Returns whether a word has a slash.
fn has_slash(word: &[u8]) -> bool
    ensures { result ≡ has_slash word.now }
{
    word.contains(&b'/')
}

/// Returns the paths that words with a slash name in a text.
#[tactic(auto, unfolding(crate::specs::Needs::script_paths))]
fn script_paths(alloc: Global, directory: &Path, text: &[u8]) -> Result<Vec<Path>, NoMem>
    ensures { IfOk result (λ paths. paths.items ≡ script_paths directory.now text.now) }
{
    let mut paths = Vec::new(alloc);
    for word in &words_of(alloc, text)? {
        if !has_slash(word) {
            continue;
        }
        if let Some(path) = named_path(alloc, directory, word)? {
            paths.push(path)?;
        }
    }
    Ok(paths)
}

/// Returns the paths that a file names, if it is a script. A word that names one has a slash, and
/// is taken from a directory.
pub(crate) fn paths_in_node(
    alloc: Global,
    directory: &Path,
    node: &Node,
) -> Result<Vec<Path>, NoMem>
    ensures { IfOk result (λ paths. paths.items ≡ paths_in_node directory.now node.now) }
{
    match node {
        Node::Missing | Node::Dir => Ok(Vec::new(alloc)),
        Node::File(bytes) => {
            if is_script(bytes.as_slice()) {
                script_paths(alloc, directory, bytes.as_slice())
            } else {
                Ok(Vec::new(alloc))
            }
        }
    }
}
