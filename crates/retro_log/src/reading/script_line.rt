//! Reads a line of a script: `[number,sid,text]`.
ghost use Rattle.std.specs.Prelude.{◌≡◌, IfOk, map};
ghost use Rattle.retro_value.specs.Borrowed.{value_data};
ghost use Rattle.retro_json.specs.ReadsAs.{seen};
ghost use Rattle.retro_log.specs.LinesPart.{head_of, line_cells, line_of};
ghost use Rattle.retro_log.specs.inner.Parts.Kind.{script};

use crate::reading::line::Line;
use json::Value;
use retro_json::{OrRefusal, Part, Refusal, accepted, cells, text, u32_in};
use retro_keep::ScriptLine;
use retro_tree::{NoMem, Text};
use std::alloc::Global;

/// Returns the number, the session and the text of a line. Refuses the number 0.
fn head_parts<'v>(
    number: &Value<'_>,
    sid: &Value<'_>,
    text_value: &Value<'v>,
) -> OrRefusal<(u32, u32, &'v str)>
    ensures { head_of (value_data number.now) (value_data sid.now) (value_data text_value.now)
        ≡ seen (λ h. record { number = h.0; sid = h.1; text = h.2.now }) result }
{
    let number = u32_in(Part::Lines, number)?;
    if number == 0 {
        return Err(Refusal::WrongShape(Part::Lines));
    }
    let sid = u32_in(Part::Lines, sid)?;
    let text = text(Part::Lines, text_value)?;
    Ok((number, sid, text))
}

/// Reads the first three items of a line of a script or of a log: its number, its session and its
/// text.
pub fn read_head(
    alloc: Global,
    number: &Value<'_>,
    sid: &Value<'_>,
    text: &Value<'_>,
) -> Result<OrRefusal<ScriptLine>, NoMem>
    ensures { IfOk result (λ head. head
        ≡ head_of (value_data number.now) (value_data sid.now) (value_data text.now)) }
{
    let (number, sid, text) = accepted!(head_parts(number, sid, text));
    Ok(Ok(ScriptLine {
        number,
        sid,
        text: Text::of(String::from_str(alloc, text)?),
    }))
}

/// Reads a line from the items of its array.
fn line_of_cells(alloc: Global, cells: &[Value<'_>]) -> Result<OrRefusal<ScriptLine>, NoMem>
    ensures { IfOk result (λ line. line ≡ line_cells (map value_data cells.now)) }
{
    match cells {
        [number, sid, text] => read_head(alloc, number, sid, text),
        _ => Ok(Err(Refusal::WrongShape(Part::Lines))),
    }
}

/// Reads a line of a script: `[number,sid,text]`.
#[tactic(auto, unfolding(crate::specs::LinesPart::line_of))]
pub fn read_script_line(alloc: Global, value: &Value<'_>) -> Result<OrRefusal<ScriptLine>, NoMem>
    ensures { IfOk result (λ line. line ≡ line_of (value_data value.now)) }
{
    line_of_cells(alloc, accepted!(cells(Part::Lines, value)))
}

impl Line for ScriptLine {
    ghost kind = { script };

    ghost line_of = { line_of };

    fn version_key() -> &'static str {
        "script"
    }

    fn read_line(alloc: Global, value: &Value<'_>) -> Result<OrRefusal<ScriptLine>, NoMem> {
        read_script_line(alloc, value)
    }
}
