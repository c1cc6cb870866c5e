//! Variables.
use crate::assignment::Assignment;
use crate::shell_name::ShellName;
use retro_path::Bytes;

/// A variable of a shell that has a value, and isn't an array.
#[derive(Drop)]
pub struct Variable {
    /// Its name.
    pub name: ShellName,
    /// Its value. It has no NUL, and may not be UTF-8.
    pub value: Bytes,
    /// Whether programs that the shell starts get it.
    pub is_exported: bool,
    /// What a line that assigns to it does.
    pub assignment: Assignment,
}
