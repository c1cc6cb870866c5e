//! Reads the list of the lines of a document.
ghost use Rattle.std.specs.Prelude.{◌≡◌, ◌<◌, Err, IfOk, None, Some};
ghost use Rattle.serde_json.specs.Data.{Data};
ghost use Rattle.retro_value.specs.Borrowed.{value_data};
ghost use Rattle.retro_value.specs.Left.{items_left, value_left};
ghost use Rattle.retro_value.specs.declared.error.ReadError.TheVariants.{NotJson};
ghost use Rattle.retro_json.specs.Rows.{IsReadOf};
ghost use Rattle.retro_json.specs.ReadsAs.{seen};
ghost use Rattle.retro_log.specs.inner.Parts.{all_lines};

use crate::reading::line::Line;
use json::{Reader, Value};
use retro_json::{OrRefusal, Part, Refusal, with_item};
use retro_tree::NoMem;
use retro_value::{ReadError, begins_array, next_item};
use std::alloc::Global;

/// Reads a line, and frees its value.
fn take_line<L: Line>(alloc: Global, value: Value<'_>) -> Result<OrRefusal<L>, NoMem>
    ensures { IfOk result (λ line. line ≡ L.line_of (value_data value.entry)) }
{
    L::read_line(alloc, &value)
}

/// Reads the lines that are left of an array, one after another, or returns their worst refusal.
fn read_items<L: Line>(
    alloc: Global,
    reader: &mut Reader<'_>,
    depth: usize,
) -> Result<OrRefusal<Vec<L>>, ReadError>
    ensures value { IfOk result (λ lines.
        IsReadOf L.line_of depth reader.old reader.new (seen (λ v. v.items) lines)) }
    ensures not_json { result ≡ Err NotJson → items_left depth reader.old ≡ None }
{
    let mut lines = Ok(Vec::new(alloc));
    'items: while let Some(item) = next_item(alloc, reader, depth)? {
        let line = take_line(alloc, item)?;
        lines = with_item(lines, line)?;
    }
    Ok(lines)
}

/// Reads the lines of a document from the next value of a text, or returns the worst refusal of the
/// whole list. The order of their numbers, the existence of their sessions and the law of their
/// changes aren't tested.
pub fn read_lines<L: Line>(
    alloc: Global,
    reader: &mut Reader<'_>,
    depth: usize,
) -> Result<OrRefusal<Vec<L>>, ReadError>
    requires { 0 < depth }
    ensures value { IfOk result (λ lines. (d : Data)
        × (value_left depth reader.old ≡ Some (d, reader.new))
        × (seen (λ v. v.items) lines ≡ all_lines L.line_of d)) }
    ensures not_json { result ≡ Err NotJson → value_left depth reader.old ≡ None }
{
    if begins_array(alloc, reader, depth)? {
        read_items(alloc, reader, depth - 1)
    } else {
        Ok(Err(Refusal::WrongShape(Part::Lines)))
    }
}
