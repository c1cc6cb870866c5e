//! What paths hold.
ghost use Rattle.std.specs.Prelude.{◌≡◌, IfOk, option_map};
ghost use Rattle.std.specs.Option.{option_copied};
ghost use Rattle.casebook_import.specs.Nodes.{bytes_by, node_by, node_of, unkept_text};

use crate::NoMem;
use crate::opaque::{opaque_digest, opaque_link, opaque_sight};
use casebook_spool::{Content, Contents, Unkept};
use casebook_watch::{Kind, Sight};
use retro_tree::{Bytes, Node};
use std::alloc::Global;

/// Returns why the bytes of a file aren't kept.
fn unkept_text(why: Unkept) -> &'static str
    ensures { result.now ≡ unkept_text why }
{
    match why {
        Unkept::TooLarge => "a file that is too large",
        Unkept::Unreadable => "a file that can't be read",
        Unkept::Changing => "a file that changes",
    }
}

/// Returns the bytes that the file of a state has.
#[tactic(auto, unfolding(crate::specs::Nodes::bytes_by))]
fn bytes_by(
    alloc: Global,
    contents: &Contents,
    sight: &Sight,
    content: Option<&Content>,
) -> Result<Bytes, NoMem>
    ensures { IfOk result (λ bytes. bytes
        ≡ bytes_by contents.now sight.now (option_map (λ content. content.now) content.entry)) }
{
    let text = match content {
        None => opaque_sight(alloc, "neither a file nor a directory", sight)?,
        Some(Content::Kept(digest)) => match contents.get(digest) {
            Some(bytes) => return bytes.copy(),
            None => opaque_digest(alloc, "bytes that are missing", &digest.bytes)?,
        },
        Some(Content::Target(target)) => opaque_link(alloc, target.as_slice())?,
        Some(Content::Unkept(why)) => opaque_sight(alloc, unkept_text(*why), sight)?,
    };
    Ok(Bytes::of(text.into_bytes()))
}

/// Returns what is at a path, by its sight and by what it is said to hold.
pub(crate) fn node_of(
    alloc: Global,
    contents: &Contents,
    sight: Option<&Sight>,
    content: Option<&Content>,
) -> Result<Node, NoMem>
    ensures { IfOk result (λ node. node ≡ node_of contents.now (option_copied sight.entry)
        (option_map (λ content. content.now) content.entry)) }
{
    let Some(sight) = sight else {
        return Ok(Node::Missing);
    };
    match sight.kind {
        Kind::Dir => Ok(Node::Dir),
        Kind::File | Kind::Link | Kind::Other => {
            Ok(Node::File(bytes_by(alloc, contents, sight, content)?))
        }
    }
}
