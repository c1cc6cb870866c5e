//! What an assignment to a variable does.

/// What a line that assigns to a variable does.
#[derive(Clone, Copy, Debug, Drop, PartialEq, Eq)]
pub enum Assignment {
    /// The variable takes the value as it is.
    Plain,
    /// The variable takes another value: a number (`-i`), or the text in lower case (`-l`), in
    /// upper case (`-u`), or with a capital first (`-c`).
    Changed,
    /// The shell refuses it (`-r`).
    Refused,
}
