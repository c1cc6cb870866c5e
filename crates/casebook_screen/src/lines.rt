//! Lines of one text or number.
ghost use Rattle.std.specs.Prelude.{◌≡◌, IfOk, IsTrue, decimal};
ghost use Rattle.std.specs.List.{list_all};
ghost use Rattle.casebook_text.specs.SafeLine.{safe_bytes};
ghost use Rattle.casebook_text.specs.SafeText.{is_printable};

use crate::NoMem;
use casebook_text::SafeLine;
use std::alloc::Global;

/// Returns bytes as a line.
pub(crate) fn bytes_line(alloc: Global, bytes: &[u8]) -> Result<SafeLine, NoMem>
    ensures { IfOk result (λ line. line ≡ safe_bytes bytes.now) }
{
    let mut line = SafeLine::new(alloc);
    line.push_bytes(alloc, bytes)?;
    Ok(line)
}

/// Returns words of printable ASCII as a line.
pub(crate) fn ascii_line(alloc: Global, words: &str) -> Result<SafeLine, NoMem>
    requires { IsTrue (list_all is_printable words.now) }
    ensures { IfOk result (λ line. line ≡ words.now) }
{
    let mut line = SafeLine::new(alloc);
    line.push_ascii(words)?;
    Ok(line)
}

/// Returns a number in decimal.
pub(crate) fn number_line(alloc: Global, number: u64) -> Result<SafeLine, NoMem>
    ensures { IfOk result (λ line. line ≡ decimal number) }
{
    let mut line = SafeLine::new(alloc);
    line.push_number(alloc, number)?;
    Ok(line)
}
