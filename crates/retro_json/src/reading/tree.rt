//! Reads the tree of a document: a list of directories `["/d"]` and files `["/f","hex"]`.
ghost use Rattle.std.specs.Prelude.{◌≡◌, ◌<◌, ◌∷◌, Err, None, Some, map, IfOk, option_map, true};
ghost use Rattle.serde_json.specs.Data.{Data};
ghost use Rattle.retro_value.specs.Left.{items_left, value_left};
ghost use Rattle.retro_value.specs.declared.error.ReadError.TheVariants.{NotJson};
ghost use Rattle.std.specs.FinMap as map;
ghost use Rattle.retro_tree.specs.Lawful.{is_lawful_tree};
ghost use Rattle.retro_tree.specs.Node.{node_of};
ghost use Rattle.retro_tree.specs.Order.{path_cmp};
ghost use Rattle.retro_value.specs.Borrowed.{value_data};
ghost use Rattle.retro_json.specs.Keyed.{map_of};
ghost use Rattle.retro_json.specs.ReadsAs.{ReadsAs, seen};
ghost use Rattle.retro_json.specs.TreePart.{file_in, root_entry, row_cells, row_of};
ghost use Rattle.retro_json.specs.Rows.{IsReadOf, tree_of_rows, tree_rows};

use crate::accepted;
use crate::fault::{LogFault, Part, Refusal};
use crate::reading::hex_text::bytes_in;
use crate::reading::path::path_in;
use crate::reading::shape::{cells, text};
use crate::reading::worst::{OrRefusal, both, with_item};
use json::{Reader, Value};
use retro_tree::{Entry, FILE_LIMIT, NoMem, Node, Path, State};
use retro_value::{ReadError, begins_array, next_item};
use std::alloc::Global;

/// Reads a file from its bytes in hexadecimal digits. Refuses a file over `FILE_LIMIT`.
fn file_in(alloc: Global, value: &Value<'_>) -> Result<OrRefusal<Entry>, NoMem>
    ensures { IfOk result (λ entry. entry ≡ file_in (value_data value.now)) }
{
    let hex = accepted!(text(Part::Tree, value));
    let Some(bytes) = bytes_in(alloc, hex)? else {
        return Ok(Err(Refusal::BadHex));
    };
    if bytes.len() as u64 > FILE_LIMIT {
        return Ok(Err(Refusal::OverLimit));
    }
    Ok(Ok(Entry::File(bytes)))
}

/// Reads a row from the items of its array.
fn row_of_cells(alloc: Global, cells: &[Value<'_>]) -> Result<OrRefusal<(Path, Entry)>, NoMem>
    ensures { IfOk result (λ row. row ≡ row_cells (map value_data cells.now)) }
{
    match cells {
        [path] => Ok(Ok((accepted!(path_in(alloc, Part::Tree, path)?), Entry::Dir))),
        [path, hex] => Ok(both(path_in(alloc, Part::Tree, path)?, file_in(alloc, hex)?)),
        _ => Ok(Err(Refusal::WrongShape(Part::Tree))),
    }
}

/// Reads a row of a tree: the path of a directory, or the path and the bytes of a file.
#[tactic(auto, unfolding(crate::specs::TreePart::row_of))]
pub fn read_tree_row(alloc: Global, value: &Value<'_>) -> Result<OrRefusal<(Path, Entry)>, NoMem>
    ensures { IfOk result (λ row. row ≡ row_of (value_data value.now)) }
{
    row_of_cells(alloc, accepted!(cells(Part::Tree, value)))
}

/// Reads a row, and frees its value.
fn take_row(alloc: Global, value: Value<'_>) -> Result<OrRefusal<(Path, Entry)>, NoMem>
    ensures { IfOk result (λ row. row ≡ row_of (value_data value.entry)) }
{
    read_tree_row(alloc, &value)
}

/// Reads the rows that are left of an array, or returns their worst refusal.
fn read_rows(
    alloc: Global,
    reader: &mut Reader<'_>,
    depth: usize,
) -> Result<OrRefusal<Vec<(Path, Entry)>>, ReadError>
    ensures value { IfOk result (λ rows.
        IsReadOf row_of depth reader.old reader.new (seen (λ v. v.items) rows)) }
    ensures not_json { result ≡ Err NotJson → items_left depth reader.old ≡ None }
{
    let mut rows = Ok(Vec::new(alloc));
    'items: while let Some(item) = next_item(alloc, reader, depth)? {
        let row = take_row(alloc, item)?;
        rows = with_item(rows, row)?;
    }
    Ok(rows)
}

/// Reads the rows of a tree from the next value of a text, one after another, or returns their
/// worst refusal.
pub fn read_tree_rows(
    alloc: Global,
    reader: &mut Reader<'_>,
    depth: usize,
) -> Result<OrRefusal<Vec<(Path, Entry)>>, ReadError>
    requires { 0 < depth }
    ensures value { IfOk result (λ rows. (d : Data)
        × (value_left depth reader.old ≡ Some (d, reader.new))
        × (seen (λ v. v.items) rows ≡ tree_rows d)) }
    ensures not_json { result ≡ Err NotJson → value_left depth reader.old ≡ None }
{
    if begins_array(alloc, reader, depth)? {
        read_rows(alloc, reader, depth - 1)
    } else {
        Ok(Err(Refusal::WrongShape(Part::Tree)))
    }
}

/// Returns the node of an entry.
fn node_of(entry: Entry) -> Node
    ensures { result ≡ node_of (Some entry) }
{
    match entry {
        Entry::Dir => Node::Dir,
        Entry::File(bytes) => Node::File(bytes),
    }
}

/// Returns the state of the root and these rows, without sessions, or `None` if a path is listed
/// twice or is the root's.
fn state_with_rows(alloc: Global, rows: Vec<(Path, Entry)>) -> Result<Option<State>, NoMem>
    ensures { IfOk result (λ found. found ≡
        option_map (λ tree. record { tree = tree; sessions = map.empty })
        (map_of path_cmp (root_entry ∷ rows.items))) }
{
    let mut state = State::empty(alloc)?;
    for row in rows {
        let (path, entry) = row;
        if state.tree().get(&path).is_some() {
            return Ok(None);
        }
        state.place(path, node_of(entry))?;
    }
    Ok(Some(state))
}

/// Returns whether a state without sessions is lawful. If so, the state is marked as lawful; its
/// value is unchanged.
fn validate_tree(alloc: Global, state: &mut State) -> Result<bool, NoMem>
    requires { state.old.sessions ≡ map.empty }
    ensures value { IfOk result (λ lawful. lawful ≡ is_lawful_tree state.old.tree) }
    ensures same { state.new ≡ state.old }
{
    state.validate(alloc)
}

/// Returns the state that has the tree of these rows and no sessions. The state is marked as
/// lawful. Refuses a tree that isn't lawful.
pub fn tree_of_rows(alloc: Global, rows: Vec<(Path, Entry)>) -> Result<State, LogFault>
    ensures value { ReadsAs (λ s. s.tree) result (tree_of_rows rows.items) }
    ensures sessions { IfOk result (λ s. s.sessions ≡ map.empty) }
    ensures lawful { IfOk result (λ s. is_lawful_tree s.tree ≡ true) }
{
    let Some(mut state) = state_with_rows(alloc, rows)? else {
        return Err(LogFault::Refused(Refusal::LawlessTree));
    };
    if !validate_tree(alloc, &mut state)? {
        return Err(LogFault::Refused(Refusal::LawlessTree));
    }
    Ok(state)
}
