//! The tags of the template that have a number in them.
ghost use Rattle.std.specs.Prelude.{◌≡◌};
ghost use Rattle.casebook_html.specs.Template.{after_number, before_number};

/// A tag of the template with a number in one of its attributes, and what comes with it.
#[derive(Clone, Copy, Debug, PartialEq, Eq)]
pub enum NumberTag {
    /// The body, with the number of sessions, up to the header's title.
    Body,
    /// The end of a span, and a row of the overview with its width, up to its name.
    Map,
    /// The short tick of an untouched line, with its place.
    TickUntouched,
    /// The tick of a cancelled line, with its place, and the end of its link.
    TickCancelled,
    /// The tick of a line with another result.
    TickChanged,
    /// The tick of a line with the same result.
    TickAlike,
    /// The tick of a line that is kept.
    TickKept,
    /// The start of a link to the row of a line.
    Link,
    /// The start of a link to a line with another result.
    LinkChanged,
    /// The start of a link to a line with the same result.
    LinkAlike,
    /// The head of a column, with its number.
    Column,
    /// The column of a cancelled line and its sign, after the name of the line's session.
    CodeCancelled,
    /// The column and the sign of a line with another result.
    CodeChanged,
    /// The column and the sign of a line with the same result.
    CodeAlike,
    /// The column and the sign of a line that is kept.
    CodeKept,
    /// The column and the sign of an untouched line.
    CodeUntouched,
}

impl NumberTag {
    /// Returns what comes before the number.
    #[tactic(auto, unfolding(crate::specs::Template::before_number))]
    pub(crate) fn before(self) -> &'static str
        ensures { result.now ≡ before_number self }
    {
        match self {
            NumberTag::Body => "<body style=\"--n:",
            NumberTag::Map => "</span><svg viewBox=\"0 0 ",
            NumberTag::TickUntouched => "<path class=u d=\"M",
            NumberTag::TickCancelled => "<path class=c d=\"M",
            NumberTag::TickChanged => "<path class=r d=\"M",
            NumberTag::TickAlike => "<path class=s d=\"M",
            NumberTag::TickKept => "<path class=k d=\"M",
            NumberTag::Link => "<a href=\"#l",
            NumberTag::LinkChanged => "<a class=r href=\"#l",
            NumberTag::LinkAlike => "<a class=s href=\"#l",
            NumberTag::Column => "<span style=\"--i:",
            NumberTag::CodeCancelled => "</b> <code style=\"--i:",
            NumberTag::CodeChanged => "</b> <code style=\"--i:",
            NumberTag::CodeAlike => "</b> <code style=\"--i:",
            NumberTag::CodeKept => "</b> <code style=\"--i:",
            NumberTag::CodeUntouched => "</b> <code style=\"--i:",
        }
    }

    /// Returns what comes after the number.
    #[tactic(auto, unfolding(crate::specs::Template::after_number))]
    pub(crate) fn after(self) -> &'static str
        ensures { result.now ≡ after_number self }
    {
        match self {
            NumberTag::Body => "\"><header><h1>",
            NumberTag::Map => " 10\" preserveAspectRatio=none role=img><title>lines of ",
            NumberTag::TickUntouched => ".5 3v4\"/>",
            NumberTag::TickCancelled => ".5 0v10\"/></a>",
            NumberTag::TickChanged => ".5 0v10\"/></a>",
            NumberTag::TickAlike => ".5 0v10\"/></a>",
            NumberTag::TickKept => ".5 0v10\"/></a>",
            NumberTag::Link => "\">",
            NumberTag::LinkChanged => "\">",
            NumberTag::LinkAlike => "\">",
            NumberTag::Column => "\">",
            NumberTag::CodeCancelled => "\" title=\"cancelled\"><i>&#10005;</i>",
            NumberTag::CodeChanged => "\" title=\"run again, another result\"><i>&#8635;</i>",
            NumberTag::CodeAlike => "\" title=\"run again, the same result\"><i>=</i>",
            NumberTag::CodeKept => "\" title=\"met, kept as recorded\"><i>&asymp;</i>",
            NumberTag::CodeUntouched => "\" title=\"untouched\"><i>&middot;</i>",
        }
    }
}
