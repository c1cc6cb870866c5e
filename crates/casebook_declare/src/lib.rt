//! The variables of a shell, read from what its `declare -p` prints.
//!
//! The recorder gets the variables of a session as this text, from bash 5.1 or later. A row is
//! `declare -FLAGS NAME=VALUE` and a newline. The flags are letters for the attributes of the
//! variable, or a dash. The value is in double quotes, or between `$'` and `'` if it has a byte
//! that the locale doesn't print, so no value has a newline in it. Bytes outside ASCII may be there
//! as they are or escaped: that depends on the locale, which the text doesn't say.
//!
//! [`variables`] returns each [`Variable`] that has a value and isn't an array, in the order of the
//! rows. Rows of arrays, of references (`declare -n`) and of variables without a value say nothing.
//! The text comes from the user's own shell and may be anything, so each row has to be as bash
//! prints it; the [`DeclareError`] of a text that isn't has the number of the first other row. Such
//! a text was altered, or no bash printed it. The other way round a text that is read may be made up:
//! each of its rows is as bash prints one, but no shell need have such variables. It isn't checked
//! that a name is there only once, that the attributes go together, that the indices of an array
//! rise, and which bytes outside ASCII are escaped. Reading takes time in proportion to the text.
//!
//! The attributes `-i`, `-l`, `-u` and `-c` change a value that a line assigns, and `-r` refuses
//! it. They say nothing of the value that is there, which is given as it is. So such a variable
//! isn't left out: its [`Assignment`] says what an assignment to it does. A caller whose model has
//! plain variables alone can take the value and has to mind the lines that assign to it.
//!
//! If allocation fails, `variables` returns `DeclareError::NoMem`.
//!
//! Start reading at `variable.rt` and `declare_error.rt`, then `texts.rt` and `row.rt`.
//!
//! # What is proved
//!
//! - `variables` returns exactly the variables that the definition of the text gives, or the
//!   definition's error (`variables_of` in `specs/Texts.antt`; a row is in `specs/Rows.antt`, with
//!   its flags in `specs/Attributes.antt`, a quoted value in `specs/Quoted.antt` and
//!   `specs/Units.antt`, and the value of an array in `specs/Arrays.antt`).
//! - Variables are read back as bash prints them, whatever bytes their values have and whichever of
//!   them the locale prints (`printed_variables_are_read_back`: `row` for one, `text` for all). How
//!   bash prints them is in `specs/Printed.antt`, apart from how values are read.
//! - The name of a variable is one (`as_str`, `name`).
//!
//! What is proved of bash rests on `specs/Printed.antt`. `checks/declares` compares what is read
//! with what a real shell says of its variables.
#![tactic(auto)]

mod array;
mod assignment;
mod attributes;
mod declare_error;
mod laws;
mod parts;
mod quoting;
mod row;
mod said;
mod shell_name;
mod texts;
mod unit;
mod variable;

pub use assignment::Assignment;
pub use declare_error::DeclareError;
pub use laws::printed_variables_are_read_back;
pub use shell_name::ShellName;
pub use texts::variables;
pub use variable::Variable;

/// Allocation failed.
pub use retro_path::NoMem;
