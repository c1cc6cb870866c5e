//! Since when lines were recorded.
ghost use Rattle.std.specs.Prelude.{◌≡◌, IfOk, map, string_bytes};
ghost use Rattle.casebook_typed.specs.Values.{line_value};
ghost use Rattle.casebook_status.specs.Recorded.{IsRecordedRow, IsSecondWords, IsTimeWords, ends_of};

use crate::NoMem;
use casebook_about::instant_text;
use casebook_record::Micros;
use casebook_text::SafeLine;
use casebook_typed::TypedLine;
use jiff::Error;
use std::alloc::Global;

/// Returns a time in seconds, in words.
fn second_words(alloc: Global, second: i64) -> Result<String, NoMem>
    ensures { IfOk result (λ text. IsSecondWords second (string_bytes text)) }
{
    match instant_text(alloc, second) {
        Ok(text) => Ok(text),
        Err(Error::OutOfMemory) => Err(NoMem),
        Err(_) => String::from_str(alloc, "a time that no calendar has"),
    }
}

/// Returns a time in words.
fn time_words(alloc: Global, time: Micros) -> Result<String, NoMem>
    ensures { IfOk result (λ text. IsTimeWords time (string_bytes text)) }
{
    second_words(alloc, (time.get() / 1_000_000) as i64)
}

/// Returns when the first and the last of some lines were seen, if there are some.
fn ends_of(lines: &[TypedLine<'_>]) -> Option<(Micros, Micros)>
    ensures { result ≡ ends_of (map line_value lines.now) }
{
    match lines {
        [] => None,
        [only] => Some((only.shown.at, only.shown.at)),
        [first, .., last] => Some((first.shown.at, last.shown.at)),
    }
}

/// Returns in a row when the first and the last of some lines were seen.
pub(crate) fn recorded_row(alloc: Global, lines: &[TypedLine<'_>]) -> Result<SafeLine, NoMem>
    ensures { IfOk result (λ row. IsRecordedRow (map line_value lines.now) row) }
{
    let mut row = SafeLine::new(alloc);
    let Some((since, until)) = ends_of(lines) else {
        row.push_ascii("  recorded  no line yet")?;
        return Ok(row);
    };
    let (since, until) = (time_words(alloc, since)?, time_words(alloc, until)?);
    row.push_ascii("  recorded  ")?;
    row.push_bytes(alloc, since.as_bytes())?;
    row.push_ascii(" to ")?;
    row.push_bytes(alloc, until.as_bytes())?;
    Ok(row)
}
