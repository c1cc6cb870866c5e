//! The classes of rows.
ghost use Rattle.std.specs.Prelude.{◌≡◌};
ghost use Rattle.casebook_html.specs.Template.{class_text};

/// What became of the line of a row, for the style.
#[derive(Clone, Copy, Debug, PartialEq, Eq)]
pub enum RowClass {
    /// Cancelled.
    Cancelled,
    /// Run again, with another result that nobody saw.
    Changed,
    /// Run again, with another output that somebody saw.
    Told,
    /// Run again, with the same result.
    Alike,
    /// Met, and kept as recorded.
    Kept,
    /// Untouched.
    Untouched,
}

impl RowClass {
    /// Returns the names of the class in the style.
    #[tactic(auto, unfolding(crate::specs::Template::class_text))]
    pub(crate) fn as_str(self) -> &'static str
        ensures { result.now ≡ class_text self }
    {
        match self {
            RowClass::Cancelled => "c",
            RowClass::Changed => "r",
            RowClass::Told => "r w",
            RowClass::Alike => "s",
            RowClass::Kept => "k",
            RowClass::Untouched => "u",
        }
    }
}
