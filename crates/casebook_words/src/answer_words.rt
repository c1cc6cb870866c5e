//! Answers in words.
ghost use Rattle.std.specs.Prelude.{◌≡◌, ◌++◌, IsTrue, OnOk};
ghost use Rattle.std.specs.List.{list_all};
ghost use Rattle.casebook_text.specs.SafeText.{is_printable};
ghost use Rattle.casebook_words.specs.Words.{answer_words, count_words, kind_words, node_words};
ghost use Rattle.casebook_words.specs.Words.{opaque_words, permit_words, size_words, user_words};

use crate::NoMem;
use crate::cut::push_cut;
use crate::first_line::count_lines;
use crate::path_words::push_path;
use casebook_opaque::{is_opaque, stands_for};
use casebook_text::SafeLine;
use retro_tree::{Answer, Kind, Node, Permit, User};
use std::alloc::Global;

/// How many bytes of a value are shown.
pub(crate) const VALUE_LIMIT: usize = 29;

/// How many bytes are shown of what a file stands for.
const OPAQUE_LIMIT: usize = 40;

/// Appends how many there are of something: `1 line`, `2 lines`. The noun is printable ASCII.
#[tactic(auto, unfolding(crate::specs::Words::count_words))]
pub fn push_count(alloc: Global, line: &mut SafeLine, count: usize, noun: &str) -> Result<(), NoMem>
    requires { IsTrue (list_all is_printable noun.now) }
    ensures { OnOk result (line.new ≡ line.old ++ count_words noun.now count) }
{
    line.push_number(alloc, count as u64)?;
    line.push_ascii(" ")?;
    line.push_ascii(noun)?;
    if count != 1 {
        line.push_ascii("s")?;
    }
    Ok(())
}

/// Appends a kind of node in words.
#[tactic(auto, unfolding(crate::specs::Words::kind_words))]
fn push_kind(line: &mut SafeLine, kind: Kind) -> Result<(), NoMem>
    ensures { OnOk result (line.new ≡ line.old ++ kind_words kind) }
{
    match kind {
        Kind::Missing => line.push_ascii("missing"),
        Kind::Dir => line.push_ascii("a directory"),
        Kind::File => line.push_ascii("a file"),
    }
}

/// Appends a permit in words.
#[tactic(auto, unfolding(crate::specs::Words::permit_words))]
fn push_permit(line: &mut SafeLine, permit: Permit) -> Result<(), NoMem>
    ensures { OnOk result (line.new ≡ line.old ++ permit_words permit) }
{
    match permit {
        Permit::Yes => line.push_ascii("yes"),
        Permit::NoParent => line.push_ascii("no, its directory is missing"),
        Permit::NotDir => line.push_ascii("no, it would be below a file"),
        Permit::IsDir => line.push_ascii("no, it is a directory"),
        Permit::TooLarge => line.push_ascii("no, it would be too large"),
    }
}

/// Appends what a file stands for.
#[tactic(auto, unfolding(crate::specs::Words::opaque_words))]
fn push_opaque(alloc: Global, line: &mut SafeLine, bytes: &[u8]) -> Result<(), NoMem>
    ensures { OnOk result (line.new ≡ line.old ++ opaque_words bytes.now) }
{
    line.push_ascii("not kept: ")?;
    push_cut(alloc, line, stands_for(bytes), OPAQUE_LIMIT)
}

/// Appends how many lines and bytes a file has.
#[tactic(auto, unfolding(crate::specs::Words::size_words))]
fn push_size(alloc: Global, line: &mut SafeLine, bytes: &[u8]) -> Result<(), NoMem>
    ensures { OnOk result (line.new ≡ line.old ++ size_words bytes.now) }
{
    push_count(alloc, line, count_lines(bytes), "line")?;
    line.push_ascii(", ")?;
    push_count(alloc, line, bytes.len(), "byte")
}

/// Appends a node in words.
#[tactic(auto, unfolding(crate::specs::Words::node_words))]
pub(crate) fn push_node(alloc: Global, line: &mut SafeLine, node: &Node) -> Result<(), NoMem>
    ensures { OnOk result (line.new ≡ line.old ++ node_words node.now) }
{
    match node {
        Node::Missing => line.push_ascii("no such file"),
        Node::Dir => line.push_ascii("a directory"),
        Node::File(bytes) => {
            let bytes = bytes.as_slice();
            if is_opaque(bytes) {
                push_opaque(alloc, line, bytes)
            } else {
                push_size(alloc, line, bytes)
            }
        }
    }
}

/// Appends a user in words.
#[tactic(auto, unfolding(crate::specs::Words::user_words))]
fn push_user(alloc: Global, line: &mut SafeLine, user: &User) -> Result<(), NoMem>
    ensures { OnOk result (line.new ≡ line.old ++ user_words user.now) }
{
    line.push_ascii("number ")?;
    line.push_number(alloc, u64::from(user.number))?;
    line.push_ascii(", home ")?;
    push_cut(alloc, line, user.home.bytes(), VALUE_LIMIT)
}

/// Appends an answer in words. Of a value at most 29 bytes are shown.
#[tactic(auto, unfolding(crate::specs::Words::answer_words))]
pub fn push_answer(alloc: Global, line: &mut SafeLine, answer: &Answer) -> Result<(), NoMem>
    ensures { OnOk result (line.new ≡ line.old ++ answer_words answer.now) }
{
    match answer {
        Answer::Kind(kind) => push_kind(line, *kind),
        Answer::Bytes(node) => push_node(alloc, line, node),
        Answer::Names(Some(listing)) => push_count(alloc, line, listing.names().len(), "name"),
        Answer::Names(None) => line.push_ascii("no directory"),
        Answer::CanWrite(permit) => push_permit(line, *permit),
        Answer::User(Some(user)) => push_user(alloc, line, user),
        Answer::User(None) => line.push_ascii("no such user"),
        Answer::Var(Some(text)) => push_cut(alloc, line, text.bytes(), VALUE_LIMIT),
        Answer::Var(None) => line.push_ascii("not set"),
        Answer::Cwd(path) => push_path(alloc, line, path),
        Answer::Status(status) => line.push_number(alloc, u64::from(*status)),
    }
}
