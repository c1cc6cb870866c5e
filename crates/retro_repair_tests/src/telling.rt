//! What a repair answers, as the texts of rows.
use retro_keep::Recording;
use retro_redo::{Compensation, Repair, RepairFault, Verdict};
use retro_rows::{fail, text, utf8};
use retro_tree::{NoMem, Path, State};
use std::alloc::Global;
use std::test::Fail;

/// Appends a number.
fn push_number(alloc: Global, out: &mut String, number: u32) -> Result<(), NoMem> {
    out.push_str(&format!(in alloc; " {number}")?)
}

/// Appends numbers.
fn push_numbers(alloc: Global, out: &mut String, numbers: &[u32]) -> Result<(), NoMem> {
    for number in numbers {
        push_number(alloc, out, *number)?;
    }
    Ok(())
}

/// Returns the numbers of the met lines, and of the redone ones.
pub fn lines(alloc: Global, repair: &Repair) -> Result<String, NoMem> {
    let mut out = text(alloc, "met")?;
    push_numbers(alloc, &mut out, &repair.met_lines(alloc)?)?;
    out.push_str(", redone")?;
    push_numbers(alloc, &mut out, &repair.lines_with(alloc, Verdict::Redone)?)?;
    Ok(out)
}

/// Appends the number of a line with what it prints, if it prints something.
fn push_output(alloc: Global, out: &mut String, number: u32, output: &[u8]) -> Result<(), Fail> {
    let printed = utf8(output)?;
    if !printed.is_empty() {
        out.push_str(&format!(in alloc; "{number} {printed}")?)?;
    }
    Ok(())
}

/// Returns the number of each line that prints something, with what it prints.
pub fn outputs(alloc: Global, repair: &Repair) -> Result<String, Fail> {
    let mut out = String::new(alloc);
    for (number, output) in &repair.outputs(alloc)? {
        push_output(alloc, &mut out, *number, output.as_slice())?;
    }
    Ok(out)
}

/// Appends the number of a compensated line, with what it printed and what it prints now.
fn push_compensation(
    alloc: Global,
    out: &mut String,
    compensation: &Compensation<'_>,
) -> Result<(), Fail> {
    let before = utf8(compensation.before)?;
    let now = utf8(compensation.now)?;
    let number = compensation.number;
    Ok(out.push_str(&format!(in alloc; "{number} [{before}] [{now}]")?)?)
}

/// Returns the number of each compensated line, with what it printed and what it prints now.
pub fn compensations(
    alloc: Global,
    recording: &Recording,
    repair: &Repair,
) -> Result<String, Fail> {
    let mut out = String::new(alloc);
    for compensation in &repair.compensations(alloc, recording)? {
        push_compensation(alloc, &mut out, compensation)?;
    }
    Ok(out)
}

/// Returns the bytes of a file, or `none`.
pub fn file(alloc: Global, state: &State, path: &Path) -> Result<String, Fail> {
    match state.file(path) {
        Some(bytes) => Ok(text(alloc, utf8(bytes.as_slice())?)?),
        None => Ok(text(alloc, "none")?),
    }
}

/// Returns how many bytes there are, and the last one.
fn end_of(alloc: Global, bytes: &[u8]) -> Result<String, NoMem> {
    match bytes.last() {
        Some(last) => format!(in alloc; "{} {last}", bytes.len()),
        None => text(alloc, "0"),
    }
}

/// Returns how many bytes a file has, and its last one.
pub fn end(alloc: Global, state: &State, path: &Path) -> Result<String, Fail> {
    match state.file(path) {
        Some(bytes) => Ok(end_of(alloc, bytes.as_slice())?),
        None => fail("no file"),
    }
}

/// Returns the number of a refusal, with the number of its line if it has one.
pub fn fault_text(alloc: Global, fault: RepairFault) -> Result<String, NoMem> {
    let refusal = fault.number();
    match fault {
        RepairFault::TwoEdits(number)
        | RepairFault::BeforeCheckpoint(number)
        | RepairFault::NoSuchLine(number) => {
            format!(in alloc; "refused {refusal}, line {number}")
        }
        _ => format!(in alloc; "refused {refusal}"),
    }
}
