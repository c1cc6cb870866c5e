//! Lists of numbers on a command line.
ghost use Rattle.std.specs.Prelude.{◌≡◌, ◌==◌, IfOk, map, option_map};
ghost use Rattle.std.specs.List.{slice_split};
ghost use Rattle.retro_text.specs.Ascii.{comma};
ghost use Rattle.retro_edge.specs.Numbers.{numbers_in, numbers_of};

use retro_text::{NoMem, number_of};
use std::alloc::Global;

/// Returns the parts of a text between its commas, empty ones too.
fn split_at_commas(alloc: Global, text: &str) -> Result<Vec<&str>, NoMem>
    ensures { IfOk result (λ v.
        map (λ s. s.now) v.items ≡ slice_split (λ b. b == comma) text.now) }
{
    text.split(',').collect(alloc)
}

/// Returns the number of each text, or `None` if one isn't a number.
fn numbers_of(alloc: Global, texts: &[&str]) -> Result<Option<Vec<u32>>, NoMem>
    ensures { IfOk result (λ found. option_map (λ v. v.items) found
        ≡ numbers_of (map (λ s. s.now) texts.now)) }
{
    let mut numbers = Vec::new(alloc);
    for text in texts {
        match number_of(text) {
            Some(number) => numbers.push(number)?,
            None => return Ok(None),
        }
    }
    Ok(Some(numbers))
}

/// Returns the numbers that a text lists with single commas between them, or `None` if it is no
/// such list.
pub fn numbers_in(alloc: Global, text: &str) -> Result<Option<Vec<u32>>, NoMem>
    ensures { IfOk result (λ found. option_map (λ v. v.items) found ≡ numbers_in text.now) }
{
    let texts = split_at_commas(alloc, text)?;
    numbers_of(alloc, texts.as_slice())
}
