//! Lists of numbers of lines.
ghost use Rattle.std.specs.Prelude.{◌≡◌, ◌==◌, ◌++◌, ◌∷◌, IfOk, OnOk, decimal, map};
ghost use Rattle.std.specs.Prelude.{if◌then◌else◌};
ghost use Rattle.std.specs.List.{join_with_byte};
ghost use Rattle.casebook_text.specs.Lists.{comma};

use crate::NoMem;
use crate::safe_line::SafeLine;
use std::alloc::Global;

/// Appends the number at an index, after a comma if it isn't the first.
fn push_number(alloc: Global, list: &mut SafeLine, index: usize, number: u32) -> Result<(), NoMem>
    ensures { OnOk result (list.new ≡ list.old
        ++ (if index == 0 then decimal number else comma ∷ decimal number)) }
{
    if index > 0 {
        list.push_ascii(",")?;
    }
    list.push_number(alloc, u64::from(number))
}

/// Returns numbers as a list: in decimal, with commas between them. `lines_of_list` reads such a
/// list of lines, and so does `retro --cancel`.
pub fn list_of_numbers(alloc: Global, numbers: &[u32]) -> Result<SafeLine, NoMem>
    ensures { IfOk result (λ list. list ≡ join_with_byte comma (map decimal numbers.now)) }
{
    let mut list = SafeLine::new(alloc);
    for (index, number) in numbers.iter().enumerate() {
        push_number(alloc, &mut list, index, *number)?;
    }
    Ok(list)
}
