//! Laws of what is printed and read. A law is a function without a body whose contract is the law.
ghost use Rattle.std.specs.Prelude.{◌≡◌, All, List, Ok, Some, map};
ghost use Rattle.casebook_declare.specs.Printed.{IsShellVariable, ShellVariable, row_text};
ghost use Rattle.casebook_declare.specs.Printed.{said_of, text_of};
ghost use Rattle.casebook_declare.specs.Rows.{row_of};
ghost use Rattle.casebook_declare.specs.Texts.{variables_of};
ghost use Rattle.casebook_declare.specs.declared.row.Row.TheVariants.{Says};

/// States that variables are read back as bash prints them, in any locale: each from its row, and
/// all from the text of their rows.
pub fn printed_variables_are_read_back()
    ensures row { (v : ShellVariable) → IsShellVariable v
        → row_of (row_text v) ≡ Some (Says (said_of v)) }
    ensures text { (vs : List ShellVariable) → All IsShellVariable vs
        → variables_of (text_of vs) ≡ Ok (map said_of vs) }
{}
