//! What help is about.

/// What help is about.
#[derive(Clone, Copy, Debug, PartialEq, Eq)]
pub enum Topic {
    /// The program, from a log to an answer.
    Program,
    /// The command `lines`.
    Lines,
    /// The command `show`.
    Show,
    /// The command `page`.
    Page,
    /// The command `cat`.
    Cat,
    /// The command `patch`.
    Patch,
    /// The command `check`.
    Check,
    /// The command `snapshot`.
    Snapshot,
    /// The command `compare`.
    Compare,
    /// The command `restore`.
    Restore,
    /// The command `script`.
    Script,
    /// The command `observe`.
    Observe,
    /// The command `import`.
    Import,
    /// The command `status`.
    Status,
    /// The command `log`.
    Log,
    /// Lists of lines.
    Lists,
    /// The documents that the program reads.
    Documents,
    /// Why documents are refused.
    Refusals,
    /// Which commands the lines of a log may have.
    Profile,
}
