//! Changes and notes in words.
ghost use Rattle.std.specs.Prelude.{◌≡◌, ◌++◌, OnOk};
ghost use Rattle.retro_tree.specs.Node.{is_present};
ghost use Rattle.casebook_words.specs.Words.{change_words, note_words, placed_words, put_words};
ghost use Rattle.casebook_words.specs.Words.{variable_words};

use crate::NoMem;
use crate::answer_words::{VALUE_LIMIT, push_answer, push_count, push_node};
use crate::cut::push_cut;
use crate::path_words::push_path;
use crate::query_words::{push_done, push_query};
use casebook_text::SafeLine;
use retro_tree::{Change, Node, Note, Path, Text, VarName};
use std::alloc::Global;

/// Returns whether a node isn't missing.
fn is_present(node: &Node) -> bool
    ensures { result ≡ is_present node.now }
{
    match node {
        Node::Missing => false,
        Node::Dir | Node::File(_) => true,
    }
}

/// Appends that a node is put at a path.
#[tactic(auto, unfolding(crate::specs::Words::placed_words))]
fn push_placed(alloc: Global, line: &mut SafeLine, path: &Path, node: &Node) -> Result<(), NoMem>
    ensures { OnOk result (line.new ≡ line.old ++ placed_words path.now node.now) }
{
    push_done(alloc, line, "put ", path)?;
    line.push_ascii(": ")?;
    push_node(alloc, line, node)
}

/// Appends that a node is put at a path, or that what is there is removed.
#[tactic(auto, unfolding(crate::specs::Words::put_words))]
fn push_put(alloc: Global, line: &mut SafeLine, path: &Path, node: &Node) -> Result<(), NoMem>
    ensures { OnOk result (line.new ≡ line.old ++ put_words path.now node.now) }
{
    if is_present(node) {
        push_placed(alloc, line, path, node)
    } else {
        push_done(alloc, line, "removed ", path)
    }
}

/// Appends that a variable is set.
#[tactic(auto, unfolding(crate::specs::Words::variable_words))]
fn push_variable(
    alloc: Global,
    line: &mut SafeLine,
    name: &VarName,
    text: &Text,
) -> Result<(), NoMem>
    ensures { OnOk result (line.new ≡ line.old ++ variable_words name.now text.now) }
{
    line.push_ascii("set variable ")?;
    line.push_word(alloc, name.as_str().as_bytes())?;
    line.push_ascii(": ")?;
    push_cut(alloc, line, text.bytes(), VALUE_LIMIT)
}

/// Appends a change in words. Sessions aren't named.
#[tactic(auto, unfolding(crate::specs::Words::change_words))]
pub fn push_change(alloc: Global, line: &mut SafeLine, change: &Change) -> Result<(), NoMem>
    ensures { OnOk result (line.new ≡ line.old ++ change_words change.now) }
{
    match change {
        Change::Put(path, node) => push_put(alloc, line, path, node),
        Change::Grow(path, bytes) => {
            push_done(alloc, line, "appended to ", path)?;
            line.push_ascii(": ")?;
            push_count(alloc, line, bytes.len(), "byte")
        }
        Change::SetVar(_, name, text) => push_variable(alloc, line, name, text),
        Change::SetCwd(_, path) => {
            line.push_ascii("set directory: ")?;
            push_path(alloc, line, path)
        }
        Change::SetStatus(_, status) => {
            line.push_ascii("set status: ")?;
            line.push_number(alloc, u64::from(*status))
        }
    }
}

/// Appends a note in words: a query with its answer, or a change.
#[tactic(auto, unfolding(crate::specs::Words::note_words))]
pub fn push_note(alloc: Global, line: &mut SafeLine, note: &Note) -> Result<(), NoMem>
    ensures { OnOk result (line.new ≡ line.old ++ note_words note.now) }
{
    match note {
        Note::Asked(ask, answer) => {
            push_query(alloc, line, ask)?;
            line.push_ascii(": ")?;
            push_answer(alloc, line, answer)
        }
        Note::Made(change) => push_change(alloc, line, change),
    }
}
