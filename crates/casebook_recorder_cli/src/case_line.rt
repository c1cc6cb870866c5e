//! Why there is no case, in words.
ghost use Rattle.std.specs.Prelude.{◌≡◌, ◌++◌, IfOk, IsTrue, decimal};
ghost use Rattle.std.specs.List.{list_all};
ghost use Rattle.casebook_text.specs.SafeText.{is_printable};
ghost use Rattle.casebook_recorder_cli.specs.Faults.{case_line};

use crate::NoMem;
use crate::fault::{push_counted, said};
use casebook_case::CaseFault;
use casebook_text::SafeLine;
use std::alloc::Global;

/// Returns words, a number and words as a line.
fn around(alloc: Global, before: &str, number: usize, after: &str) -> Result<SafeLine, NoMem>
    requires before { IsTrue (list_all is_printable before.now) }
    requires after { IsTrue (list_all is_printable after.now) }
    ensures { IfOk result (λ line. line ≡ before.now ++ decimal number ++ after.now) }
{
    let mut line = SafeLine::new(alloc);
    push_counted(alloc, &mut line, before, number as u64)?;
    line.push_ascii(after)?;
    Ok(line)
}

/// Returns why there is no case, in a line.
#[tactic(auto, unfolding(crate::specs::Faults::case_line))]
pub(crate) fn case_line(alloc: Global, fault: CaseFault) -> Result<SafeLine, NoMem>
    ensures { IfOk result (λ line. line ≡ case_line fault) }
{
    match fault {
        CaseFault::NoMem => said(alloc, "out of memory"),
        CaseFault::Unread => said(alloc, "it can't be read"),
        CaseFault::NotText => said(alloc, "a file of it isn't text"),
        CaseFault::NotJson => said(alloc, "not a JSON text"),
        CaseFault::NotACase => said(alloc, "not a case: \"case\" isn't 1, or keys are wrong"),
        CaseFault::BadContent(place) => around(
            alloc,
            "content ",
            place,
            ": not hexadecimal digits",
        ),
        CaseFault::BadFirst => said(alloc, "its first look can't be read"),
        CaseFault::BadLine(row) => around(
            alloc,
            "row ",
            row,
            " of its lines: neither a note nor a record",
        ),
        CaseFault::MissingFirst(row) => around(
            alloc,
            "row ",
            row,
            " of its first look: the bytes are missing or were altered",
        ),
        CaseFault::MissingLine(row) => around(
            alloc,
            "row ",
            row,
            " of its lines: the bytes are missing or were altered",
        ),
    }
}
