//! Edits of lines as edits of texts.
ghost use Rattle.std.specs.Prelude.{◌≡◌, ◌≤◌, ◌++◌, ◌-◌, IfErr, IfOk, Ok, OnOk, map};
ghost use Rattle.std.specs.List.{range_with_len};
ghost use Rattle.retro_keep.specs.declared.edit.Edit.TheVariants.{Cancel};
ghost use Rattle.casebook_account.specs.Edits.{HasNoText, IsNoEdit, edit_of_text, edits_in};
ghost use Rattle.casebook_account.specs.Edits.{edits_of_texts, known_lines};
ghost use Rattle.casebook_account.specs.Edits.{noted_line, seen_line, text_edits, text_numbers};

use crate::NoMem;
use crate::account::{Account, Machine};
use crate::account_fault::AccountFault;
use crate::machine_line::MachineLine;
use retro_keep::{Edit, Noted};
use std::alloc::Global;

/// Appends edits that leave out the texts with these numbers.
fn push_cancels(edits: &mut Vec<Edit>, first: u32, end: u32) -> Result<(), NoMem>
    requires { first ≤ end }
    ensures { OnOk result (edits.new.items
        ≡ edits.old.items ++ map Cancel (range_with_len first (end - first))) }
{
    for number in first..end {
        edits.push(Edit::Cancel(number))?;
    }
    Ok(())
}

/// Returns an edit of a line as one of the text with a number.
fn edit_of_text(edit: &Edit, number: u32) -> Result<Edit, NoMem>
    ensures { IfOk result (λ own. own ≡ edit_of_text number edit.now) }
{
    match edit {
        Edit::Cancel(_) => Ok(Edit::Cancel(number)),
        Edit::Replace(_, text) => Ok(Edit::Replace(number, text.copy()?)),
    }
}

/// Appends the edits of a line's texts that an edit of the line stands for.
#[tactic(auto, using(crate::proofs::EditLists::of_texts))]
fn push_edits(edits: &mut Vec<Edit>, edit: &Edit, line: &MachineLine) -> Result<(), NoMem>
    ensures { OnOk result (edits.new.items
        ≡ edits.old.items ++ edits_of_texts edit.now (text_numbers line.now)) }
{
    let (first, end) = (line.first, line.end);
    if end <= first {
        return Ok(());
    }
    edits.push(edit_of_text(edit, first)?)?;
    push_cancels(edits, first + 1, end)?;
    Ok(())
}

/// Returns the edits of texts that edits of lines stand for.
fn edits_in(alloc: Global, machine: &Machine, edits: &[Edit]) -> Result<Vec<Edit>, AccountFault>
    ensures ok { IfOk result (λ found. edits_in machine.now.lines.items edits.now ≡ Ok found.items) }
    ensures err { IfErr result (IsNoEdit (edits_in machine.now.lines.items edits.now)) }
{
    let mut found = Vec::new(alloc);
    for edit in edits {
        match machine.line(edit.number()) {
            Some(line) => push_edits(&mut found, edit, line)?,
            None => return Err(AccountFault::NoLine(edit.number())),
        }
    }
    Ok(found)
}

/// Returns copies of edits.
fn copies(alloc: Global, edits: &[Edit]) -> Result<Vec<Edit>, NoMem>
    ensures { IfOk result (λ copies. copies.items ≡ edits.now) }
{
    let mut copies = Vec::with_capacity(alloc, edits.len())?;
    for edit in edits {
        copies.push(edit.copy()?)?;
    }
    Ok(copies)
}

/// Returns the numbers and the sessions of lines.
fn noted_lines(alloc: Global, lines: &[(u32, Noted)]) -> Result<Vec<(u32, u32)>, NoMem>
    ensures { IfOk result (λ found. found.items ≡ map noted_line lines.now) }
{
    let mut found = Vec::with_capacity(alloc, lines.len())?;
    for line in lines {
        found.push((line.0, line.1.sid))?;
    }
    Ok(found)
}

/// Returns the numbers and the sessions of the lines of a machine.
fn seen_lines(alloc: Global, lines: &[MachineLine]) -> Result<Vec<(u32, u32)>, NoMem>
    ensures { IfOk result (λ found. found.items ≡ map seen_line lines.now) }
{
    let mut found = Vec::with_capacity(alloc, lines.len())?;
    for line in lines {
        found.push((line.number, line.session))?;
    }
    Ok(found)
}

impl Account {
    /// Returns the numbers and the sessions of the lines that people can name: those of a case, or
    /// those of a log.
    pub fn known_lines(&self, alloc: Global) -> Result<Vec<(u32, u32)>, NoMem>
        ensures { IfOk result (λ found. found.items ≡ known_lines self.now) }
    {
        match &self.machine {
            Some(machine) => seen_lines(alloc, machine.lines.as_slice()),
            None => noted_lines(alloc, self.recording.lines()),
        }
    }

    /// Returns edits of lines as edits of the recording's lines: of the texts of a case, and of a log
    /// the same.
    ///
    /// # Errors
    ///
    /// `NoLine` with the number of the first edit of a case that no line has.
    pub fn text_edits(&self, alloc: Global, edits: &[Edit]) -> Result<Vec<Edit>, AccountFault>
        ensures ok { IfOk result (λ found. text_edits self.now edits.now ≡ Ok found.items) }
        ensures err { IfErr result (HasNoText self.now edits.now) }
    {
        match &self.machine {
            Some(machine) => edits_in(alloc, machine, edits),
            None => Ok(copies(alloc, edits)?),
        }
    }
}
