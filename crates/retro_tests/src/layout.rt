//! The layout of tables, as `retro_rows` states and reads it.
use retro_rows::{rows, text};
use retro_tree::NoMem;
use std::alloc::Global;

/// Rows in each form that a table may have, and texts that aren't tables: the fields of a row in
/// brackets, the bytes of a field, or the fault of a table.
pub const LAYOUT: &str = r##"
fields: a => [a]
fields: a ::  b  :: %(EMPTY) => [a][ b ][]
fields: the break
  is a space => [the break is a space]
fields: deeper
      lines :: are
   continuations => [deeper lines][are continuations]
fields: \ in a line, and \\ too => [\ in a line, and \\ too]
fields: 12\
  34\
    56 => [123456]

given: a :: b
- fields: c => [a][b][c]

- fields: c :: d => [a][b][c][d]
fields: c => [c]
- fields: c => [a][b][c]

given: alike\
  ,
  for all
- fields: c => [alike, for all][c]

same: a%(NL)%(EMPTY)  | b%(NL)%(NL)c%(NL) =>
| a
|   | b
|
|c

codes: a%(NL)%(TAB)%(CR)%(NUL)%(EMPTY)b => 97 10 9 13 0 98
codes: %(ESC)%(RLO) => 27 226 128 174
codes: %(BOM) => 239 187 191
codes: %(ab*2)%(c*0) => 97 98 97 98
fields: %(%*1)(NL) :: %(=*1)> => [%(%*1)(NL)][%(=*1)>]

fault: %(EMPTY) => table
fault: a => NoCall
fault: a: b => NothingWanted
fault: - a: b => NoHeader
fault: given: a%(NL)- b => NoCall
fault: given: a%(NL)- b: c => NothingWanted
fault: a: b %(=*1)> %(%*1)(c => BadEscape
fault: a: b %(=*1)> %(%*1)(c) => BadEscape
fault: a: b %(=*1)> %(%*1)(c*d) => BadEscape
"##;

/// Returns fields in brackets.
pub fn fields(alloc: Global, given: &[String]) -> Result<String, NoMem> {
    let mut out = String::new(alloc);
    for field in given {
        out.push('[')?;
        out.push_str(field)?;
        out.push(']')?;
    }
    Ok(out)
}

/// Appends a number after a space, or alone as the first one.
fn push_code(alloc: Global, out: &mut String, code: u8) -> Result<(), NoMem> {
    if !out.is_empty() {
        out.push(' ')?;
    }
    out.push_str(&format!(in alloc; "{code}")?)
}

/// Returns the bytes of a text as numbers.
pub fn codes(alloc: Global, given: &str) -> Result<String, NoMem> {
    let mut out = String::new(alloc);
    for code in given.as_bytes() {
        push_code(alloc, &mut out, *code)?;
    }
    Ok(out)
}

/// Returns the fault of a table, or `table`.
pub fn fault(alloc: Global, table: &str) -> Result<String, NoMem> {
    match rows(alloc, table) {
        Ok(_) => text(alloc, "table"),
        Err(fault) => format!(in alloc; "{fault:?}"),
    }
}
