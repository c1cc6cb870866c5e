//! Reads a line of a log: `[number,sid,text,notes,"hex"]`.
ghost use Rattle.std.specs.Prelude.{◌≡◌, IfOk, map};
ghost use Rattle.retro_value.specs.Borrowed.{value_data};
ghost use Rattle.retro_log.specs.LogLinesPart.{log_line_cells, log_line_of, with_run};
ghost use Rattle.retro_log.specs.inner.Parts.Kind.{log};

use crate::reading::line::Line;
use crate::reading::script_line::read_head;
use json::Value;
use retro_json::{OrRefusal, Part, Refusal, accepted, both, cells, hex_field, notes_field};
use retro_keep::{Noted, ScriptLine};
use retro_tree::NoMem;
use std::alloc::Global;

/// Reads the notes and the output of a line, and returns them with the number, the session and the
/// text of `head`.
fn with_run(
    alloc: Global,
    head: ScriptLine,
    notes: &Value<'_>,
    output: &Value<'_>,
) -> Result<OrRefusal<(u32, Noted)>, NoMem>
    ensures { IfOk result (λ line. line
        ≡ with_run head (value_data notes.now) (value_data output.now)) }
{
    let ScriptLine { number, sid, text } = head;
    let fields = both(notes_field(alloc, sid, notes)?, hex_field(alloc, output)?);
    let (notes, output) = accepted!(fields);
    let noted = Noted {
        sid,
        text,
        notes,
        output,
    };
    Ok(Ok((number, noted)))
}

/// Reads a line from the items of its array.
fn line_of_cells(alloc: Global, cells: &[Value<'_>]) -> Result<OrRefusal<(u32, Noted)>, NoMem>
    ensures { IfOk result (λ line. line ≡ log_line_cells (map value_data cells.now)) }
{
    let [number, sid, text, notes, output] = cells else {
        return Ok(Err(Refusal::WrongShape(Part::Lines)));
    };
    let head = accepted!(read_head(alloc, number, sid, text)?);
    with_run(alloc, head, notes, output)
}

/// Reads a line of a log: `[number,sid,text,notes,"hex"]`.
#[tactic(auto, unfolding(crate::specs::LogLinesPart::log_line_of))]
pub fn read_log_line(alloc: Global, value: &Value<'_>) -> Result<OrRefusal<(u32, Noted)>, NoMem>
    ensures { IfOk result (λ line. line ≡ log_line_of (value_data value.now)) }
{
    line_of_cells(alloc, accepted!(cells(Part::Lines, value)))
}

impl Line for (u32, Noted) {
    ghost kind = { log };

    ghost line_of = { log_line_of };

    fn version_key() -> &'static str {
        "log"
    }

    fn read_line(alloc: Global, value: &Value<'_>) -> Result<OrRefusal<(u32, Noted)>, NoMem> {
        read_log_line(alloc, value)
    }
}
