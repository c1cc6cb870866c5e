//! What a repair did with lines, by what it did with their texts.
ghost use Rattle.std.specs.Prelude.{◌≡◌, ◌++◌, IfOk, OnOk, drop};
ghost use Rattle.std.specs.List.{list_any, prefix_len, take_while};
ghost use Rattle.casebook_account.specs.Shown.{is_line_below, settled_from, settled_line};
ghost use Rattle.casebook_account.specs.Shown.{shown_settled, verdict_on};

use crate::NoMem;
use crate::account::Account;
use crate::machine_line::MachineLine;
use retro_redo::{SettledLine, Verdict};
use std::alloc::Global;

/// Returns how many lines there are before the first one that hasn't a number below `end`.
#[tactic(auto, using(crate::proofs::Fronts::counting))]
fn count_below(lines: &[SettledLine], end: u32) -> usize
    ensures { result ≡ prefix_len (is_line_below end) lines.now }
{
    for (index, line) in lines.iter().enumerate() {
        if line.number >= end {
            return index;
        }
    }
    lines.len()
}

/// Splits lines before the first one that hasn't a number below `end`.
fn split_below(lines: &[SettledLine], end: u32) -> (&[SettledLine], &[SettledLine])
    ensures front { result.0.now ≡ take_while (is_line_below end) lines.entry.now }
    ensures rest { result.1.now ≡ drop (prefix_len (is_line_below end) lines.entry.now) lines.entry.now }
{
    lines.split_at(count_below(lines, end))
}

/// Returns the verdict on a line, by the verdict on its first text and those on the others.
fn verdict_on(verdict: Verdict, texts: &[SettledLine]) -> Verdict
    ensures { result ≡ verdict_on verdict texts.now }
{
    for text in texts {
        if text.verdict != verdict {
            return Verdict::Redone;
        }
    }
    verdict
}

/// Returns whether one of a line's texts is met.
fn is_met(texts: &[SettledLine]) -> bool
    ensures { result ≡ list_any (λ t. t.is_met) texts.now }
{
    for text in texts {
        if text.is_met {
            return true;
        }
    }
    false
}

/// Appends what a repair did with a line, if it has texts.
fn push_settled(
    settled: &mut Vec<SettledLine>,
    line: &MachineLine,
    texts: &[SettledLine],
) -> Result<(), NoMem>
    ensures { OnOk result (settled.new.items ≡ settled.old.items ++ settled_line line.now texts.now) }
{
    let Some((text, others)) = texts.split_first() else {
        return Ok(());
    };
    settled.push(SettledLine {
        number: line.number,
        verdict: verdict_on(text.verdict, others),
        is_met: is_met(texts),
    })?;
    Ok(())
}

/// Returns what a repair did with each line of a machine.
fn settled_from(
    alloc: Global,
    lines: &[MachineLine],
    texts: &[SettledLine],
) -> Result<Vec<SettledLine>, NoMem>
    ensures { IfOk result (λ settled. settled.items ≡ settled_from lines.now texts.now) }
{
    let mut settled = Vec::with_capacity(alloc, lines.len())?;
    let mut rest = texts;
    for line in lines {
        let (own, others) = split_below(rest, line.end);
        push_settled(&mut settled, line, own)?;
        rest = others;
    }
    Ok(settled)
}

impl Account {
    /// Returns what a repair did with each line, by what it did with each text. What a repair of a
    /// log did is returned as it is.
    pub fn shown_lines(
        &self,
        alloc: Global,
        settled: Vec<SettledLine>,
    ) -> Result<Vec<SettledLine>, NoMem>
        ensures { IfOk result (λ found. found.items ≡ shown_settled self.now settled.items) }
    {
        match &self.machine {
            Some(machine) => settled_from(alloc, machine.lines.as_slice(), settled.as_slice()),
            None => Ok(settled),
        }
    }
}
