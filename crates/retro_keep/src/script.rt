//! Scripts.
ghost use Rattle.std.specs.Prelude.{◌≡◌, ◌++◌, IfOk, OnOk, Ok};
ghost use Rattle.std.specs.FinMap as map_of;
ghost use Rattle.retro_tree.specs.Lawful.{IsLawful};
ghost use Rattle.retro_keep.specs.Edit.{IsEdited, edit, edited, line_run, text_run};
ghost use Rattle.retro_keep.specs.Script.{IsScript, Makes};
ghost use Rattle.retro_keep.specs.Script.{script_fault, script_of, script_of_lines};
ghost use Rattle.retro_keep.specs.declared.script.ScriptFault.TheVariants as faults;

use crate::edit::Edit;
use crate::edit_fault::EditFault;
use crate::edit_test::{least_edited_twice, least_missing};
use crate::edits::Edits;
use crate::numbered::test_lines;
use retro_tree::{NoMem, State, Text};
use std::alloc::Global;
use std::marker::Model;
use thiserror::Error;

/// A line of a script.
#[derive(Drop)]
pub struct ScriptLine {
    /// The line's number, at least 1.
    pub number: u32,
    /// The session that runs the line.
    pub sid: u32,
    /// The line's text.
    pub text: Text,
}

/// Why a state and lines don't make a script.
#[derive(Clone, Copy, Debug, Drop, PartialEq, Eq, Error)]
pub enum ScriptFault {
    /// Line numbers don't rise, or the first is 0 (refusal 8).
    #[error("line numbers don't rise")]
    NumbersNotRising,
    /// A line's session is missing in the first state (refusal 9).
    #[error("a line's session is missing")]
    UnknownSession,
    /// The tree of the first state isn't lawful (refusal 10).
    #[error("the tree isn't lawful")]
    LawlessTree,
    /// A file or the value of a variable is over its limit (refusal 11).
    #[error("over a limit")]
    OverLimit,
    /// Allocation failed.
    #[error("out of memory")]
    NoMem,
}

impl From<NoMem> for ScriptFault {
    ghost from_gives = { λ _ fault. fault ≡ faults.NoMem };

    fn from(_error: NoMem) -> ScriptFault {
        ScriptFault::NoMem
    }
}

/// Why lines don't fit a first state.
#[derive(Clone, Copy, Debug, Drop, PartialEq, Eq, Error)]
pub enum LinesFault {
    /// Line numbers don't rise, or the first is 0 (refusal 8).
    #[error("line numbers don't rise")]
    NumbersNotRising,
    /// A line's session is missing in the first state (refusal 9).
    #[error("a line's session is missing")]
    UnknownSession,
}

impl From<LinesFault> for ScriptFault {
    ghost from_gives = { λ lines fault. fault ≡ script_fault lines };

    fn from(fault: LinesFault) -> ScriptFault {
        match fault {
            LinesFault::NumbersNotRising => ScriptFault::NumbersNotRising,
            LinesFault::UnknownSession => ScriptFault::UnknownSession,
        }
    }
}

/// A first state, and the lines that are run from it, in order.
///
/// The type guarantees that the first state is lawful, that line numbers are at least 1 and rise,
/// and that each line's session exists in the first state.
#[derive(Drop)]
pub struct Script {
    first: State,
    lines: Vec<ScriptLine>,
}

impl Model for Script {
    ghost use Rattle.retro_keep.specs.Script.{ScriptValue, IsScript};
    ghost use Rattle.retro_keep.specs.inner.ScriptCode.{coded_script};

    ghost Value = { ScriptValue };

    ghost coded = { coded_script };

    ghost view = { λ a. record { first = a.first; lines = a.lines.items } };

    ghost invariant = { λ a. IsScript (record { first = a.first; lines = a.lines.items }) };
}

impl Script {
    /// Returns the script of these parts, or the first refusal in the order limits, law of the
    /// tree, line numbers, sessions. The script's first state is marked as lawful.
    #[tactic(auto, using(crate::proofs::Parts::parts), unfolding(crate::specs::Script::script_of))]
    pub fn new(alloc: Global, first: State, lines: Vec<ScriptLine>) -> Result<Script, ScriptFault>
        ensures { Makes result (script_of first lines.items) }
    {
        let mut first = first;
        if !first.is_within_limits() {
            return Err(ScriptFault::OverLimit);
        }
        if !first.validate(alloc)? {
            return Err(ScriptFault::LawlessTree);
        }
        Ok(Script::of_lawful(first, lines)?)
    }

    /// Returns the script of a lawful state and lines, or the first refusal in the order line
    /// numbers, sessions.
    #[tactic(auto, unfolding(crate::specs::Script::script_of_lines))]
    pub fn of_lawful(first: State, lines: Vec<ScriptLine>) -> Result<Script, LinesFault>
        requires { IsLawful first }
        ensures { result ≡ script_of_lines first lines.items }
    {
        test_lines(&first, lines.as_slice())?;
        Ok(Script { first, lines })
    }

    /// Returns the state before the first line.
    pub fn first(&self) -> &State
        ensures value { result.now ≡ self.now.first }
        ensures lawful { IsScript self.now }
    {
        &self.first
    }

    /// Returns the lines, in order.
    pub fn lines(&self) -> &[ScriptLine]
        ensures value { result.now ≡ self.now.lines }
        ensures lawful { IsScript self.now }
    {
        self.lines.as_slice()
    }

    /// Returns the first state and the lines.
    pub fn into_parts(self) -> (State, Vec<ScriptLine>)
        ensures first { result.0 ≡ self.first }
        ensures lines { result.1.items ≡ self.lines }
        ensures lawful { IsScript self }
    {
        let Script { first, lines } = self;
        (first, lines)
    }

    /// Returns the script with edited lines, or the first refusal: of the least number that two
    /// different edits name, and then of the least number that no line has. `NoMem` only if no edit
    /// is refused, since the edits are tested before any memory is allocated.
    pub fn edit(self, alloc: Global, edits: &[Edit]) -> Result<Script, EditFault>
        ensures { IsEdited result (edit edits.now self) }
    {
        if let Some(number) = least_edited_twice(edits) {
            return Err(EditFault::TwoEdits(number));
        }
        if let Some(number) = least_missing(&self.lines, edits) {
            return Err(EditFault::NoSuchLine(number));
        }
        let edits = Edits::of(alloc, edits)?;
        let Script {
            first,
            lines: unedited,
        } = self;
        let lines = edit_lines(alloc, unedited, &edits)?;
        Ok(Script { first, lines })
    }
}

/// Returns the edited lines. A line that no edit names is moved.
fn edit_lines(
    alloc: Global,
    lines: Vec<ScriptLine>,
    edits: &Edits<'_>,
) -> Result<Vec<ScriptLine>, NoMem>
    ensures { IfOk result (λ done. done.items ≡ edited (map_of.get edits.now) lines.items) }
{
    let mut done = Vec::with_capacity(alloc, lines.len())?;
    for line in lines {
        push_edited(&mut done, line, edits)?;
    }
    Ok(done)
}

/// Appends a line as it is edited, unless it is left out.
fn push_edited(done: &mut Vec<ScriptLine>, line: ScriptLine, edits: &Edits<'_>) -> Result<(), NoMem>
    ensures { OnOk result (done.new.items ≡ done.old.items
        ++ line_run line (text_run (map_of.get edits.now line.number) line.text)) }
{
    match edits.get(line.number) {
        None => done.push(line)?,
        Some(Edit::Cancel(_)) => {}
        Some(Edit::Replace(_, text)) => done.push(ScriptLine {
            number: line.number,
            sid: line.sid,
            text: text.copy()?,
        })?,
    }
    Ok(())
}
