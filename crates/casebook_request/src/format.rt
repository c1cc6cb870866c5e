//! Formats of rows.

/// How rows are written.
#[derive(Clone, Copy, Debug, PartialEq, Eq)]
pub enum Format {
    /// As text, one to four lines for each row.
    Text,
    /// As a table, with tabs between fields.
    Tsv,
    /// As a list of numbers, in one line.
    Numbers,
}
