//! Lists of the lines to cancel.
ghost use Rattle.std.specs.Prelude.{◌≡◌, Ok, IfOk, IfErr, option_map, string_bytes};
ghost use Rattle.casebook_text.specs.Lists.{lines_of_list};
ghost use Rattle.casebook_repairs.specs.Repairs.{IsListGiven, cancelled};
ghost use Rattle.casebook_repairs.specs.Stops.{IsNoText, StopsNumbers};
ghost use Rattle.casebook_repairs.specs.Views.{document_view};

use crate::NoMem;
use crate::document::Document;
use crate::stop::Stop;
use casebook_text::{ListFault, lines_of_list, list_of_file};
use retro_keep::Edit;
use std::alloc::Global;

/// Returns the list in a document, if there is one, and otherwise what is given.
pub(crate) fn list_given<'a>(
    alloc: Global,
    given: &str,
    document: &Option<Document<'a>>,
) -> Result<String, Stop<'a>>
    ensures ok { IfOk result (λ list.
        IsListGiven given.now (option_map document_view document.now) (string_bytes list)) }
    ensures err { IfErr result (IsNoText (option_map document_view document.now)) }
{
    let Some(document) = document else {
        return Ok(String::from_str(alloc, given)?);
    };
    match std::str::from_utf8(document.bytes.as_slice()) {
        Ok(text) => Ok(list_of_file(alloc, text)?),
        Err(_) => Err(Stop::BadText(document.name)),
    }
}

/// Returns the numbers of the lines that a list names, by the numbers and the sessions of all lines.
pub(crate) fn numbers_of<'a>(
    alloc: Global,
    lines: &[(u32, u32)],
    list: &str,
) -> Result<Vec<u32>, Stop<'a>>
    ensures ok { IfOk result (λ numbers. lines_of_list lines.now list.now ≡ Ok numbers.items) }
    ensures err { IfErr result (StopsNumbers lines.now list.now) }
{
    match lines_of_list(alloc, list, lines) {
        Ok(numbers) => Ok(numbers),
        Err(ListFault::NoMem) => Err(Stop::OutOfMemory),
        Err(fault) => Err(Stop::BadList(fault)),
    }
}

/// Returns the edits that leave out the lines with these numbers.
pub(crate) fn cancellations(alloc: Global, numbers: &[u32]) -> Result<Vec<Edit>, NoMem>
    ensures { IfOk result (λ edits. edits.items ≡ cancelled numbers.now) }
{
    let mut edits = Vec::new(alloc);
    for number in numbers {
        edits.push(Edit::Cancel(*number))?;
    }
    Ok(edits)
}
