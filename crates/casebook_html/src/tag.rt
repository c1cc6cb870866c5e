//! The constants of the template.
ghost use Rattle.std.specs.Prelude.{◌≡◌};
ghost use Rattle.casebook_html.specs.Template.{tag_text};

use crate::script::SCRIPT;
use crate::style::STYLE;

/// A constant of the template. Each begins and ends outside of tags, and what it begins of the
/// style or of a script it ends.
#[derive(Clone, Copy, Debug, PartialEq, Eq)]
pub enum Tag {
    /// The start of the page, with its policy, up to the text of the title.
    Begin,
    /// The end of the title, and the style.
    Style,
    /// The end of the header's title, and the rest of the header.
    Header,
    /// The footer, the script, and the end of the page.
    Script,
    /// A leading sentence.
    Lead,
    /// A paragraph.
    Paragraph,
    /// A paragraph in small type.
    Small,
    /// The end of a paragraph.
    ParagraphEnd,
    /// A strong text.
    Strong,
    /// The end of a strong text.
    StrongEnd,
    /// The start of the block of lines that weren't understood or have to be run for real.
    Unknown,
    /// What comes before the lines of that block by their obstacles.
    UnknownList,
    /// The start of the lines with an obstacle.
    UnknownRow,
    /// The end of that.
    UnknownRowEnd,
    /// The end of that block.
    UnknownEnd,
    /// The start of a link to that block.
    UnknownLink,
    /// The sign of a line that wasn't understood.
    SignUnknown,
    /// The sign of a line that has to be run for real.
    SignNeed,
    /// The sign of a line that stands as it was observed.
    SignObserved,
    /// The sign of a path that a line wrote which wasn't understood.
    SignDoubtful,
    /// The sign of a path that a line wrote which has to be run for real.
    SignDoubtfulNeed,
    /// The overview.
    Map,
    /// The end of a block.
    BlockEnd,
    /// A span.
    Span,
    /// The end of the name of a row of the overview.
    MapName,
    /// The end of a row of the overview.
    MapEnd,
    /// The end of a link.
    LinkEnd,
    /// The boxes that show and hide lines.
    Key,
    /// The box of cancelled lines.
    KeyCancelled,
    /// The box of lines with another result.
    KeyChanged,
    /// The box of lines with the same result.
    KeyAlike,
    /// The box of lines that are kept.
    KeyKept,
    /// The box of untouched lines.
    KeyUntouched,
    /// The end of a box.
    LabelEnd,
    /// The end of the boxes.
    KeyEnd,
    /// The head of the section of cancelled lines.
    Cancelled,
    /// The head of the section of paths, up to their counts.
    Restore,
    /// The end of a section's head.
    HeadEnd,
    /// The head of the section of whom to tell.
    Tell,
    /// The head of the section of lines.
    Lines,
    /// The end of the section of lines.
    LinesEnd,
    /// The end of a section.
    SectionEnd,
    /// The head of a session's part.
    Person,
    /// The end of that head.
    PersonEnd,
    /// The row of a cancelled line.
    Effect,
    /// How much was seen.
    Leak,
    /// The end of that.
    LeakEnd,
    /// The row of a path that changes.
    Modified,
    /// The row of a path that comes back.
    Added,
    /// The row of a path that goes.
    Removed,
    /// The row of a path that a line wrote which has to be run for real, and that doesn't differ.
    Undecided,
    /// The row of what a session is told about.
    Subject,
    /// What comes after how often something was seen.
    Times,
    /// What comes before the name of a cancelled line's session.
    EffectName,
    /// What comes before a cancelled line.
    EffectCode,
    /// What comes after a row's text.
    RowDetail,
    /// The end of what a closed row shows.
    RowBody,
    /// The end of a row.
    DetailsEnd,
    /// A command.
    Command,
    /// A text of several lines.
    Pre,
    /// A diff.
    Diff,
    /// The end of a text of several lines.
    PreEnd,
    /// A note about a text, in the text: what is left out, or where a part of a diff is.
    Cut,
    /// The end of that.
    CutEnd,
    /// How many more lines differ.
    More,
    /// The end of that.
    MoreEnd,
    /// That a text is empty.
    Nothing,
    /// A text that goes.
    Delete,
    /// The end of a text that goes.
    DeleteEnd,
    /// A text that comes.
    Insert,
    /// The end of a text that comes.
    InsertEnd,
    /// A newline.
    Newline,
    /// Two texts side by side.
    Pair,
    /// What somebody saw.
    Saw,
    /// What somebody would have seen.
    WouldSee,
    /// The end of one of two texts.
    FigureEnd,
    /// The heads of the columns.
    Columns,
    /// The end of a span.
    SpanEnd,
    /// What comes before a line's time.
    LineTime,
    /// What comes before the name of a line's session.
    LineName,
    /// The end of what the closed row of a line shows.
    LineEnd,
    /// What the row of a line has inside, up to the line's number.
    Body,
    /// What comes before the name of an open row's session.
    BodyName,
    /// The end of that.
    BodyNameEnd,
    /// Folded lines.
    Fold,
    /// The end of what a fold shows.
    FoldEnd,
    /// What comes between two causes.
    Arrow,
}

impl Tag {
    /// Returns the text of a constant.
    #[tactic(auto, unfolding(crate::specs::Template::tag_text))]
    pub(crate) fn as_str(self) -> &'static str
        ensures { result.now ≡ tag_text self }
    {
        match self {
            Tag::Begin =>
                "<!doctype html><html lang=en><meta charset=utf-8><meta name=viewport content=\"width=device-width\"><meta http-equiv=Content-Security-Policy content=\"default-src 'none'; style-src 'unsafe-inline'; script-src 'sha256-RecdBngLGHf2XbiOLeTrnCvwPvPErXDENIM4Du3o3Wg='\"><title>",
            Tag::Style => STYLE,
            Tag::Header =>
                "</h1><nav><a href=#cancelled>Cancelled</a><a href=#restore>Restore</a><a href=#tell>Tell</a><a href=#lines>Lines</a></nav><input id=q type=search placeholder=\"/ to search\" aria-label=\"search lines\" hidden><label title=\"dark\"><input type=checkbox id=dark>&#9680;</label></header><main>",
            Tag::Script => SCRIPT,
            Tag::Lead => "<p class=lead>",
            Tag::Paragraph => "<p>",
            Tag::Small => "<p class=io>",
            Tag::ParagraphEnd => "</p>",
            Tag::Strong => "<strong>",
            Tag::StrongEnd => "</strong>",
            Tag::Unknown => "<section class=doubt id=unknown><p><i class=q>?</i> ",
            Tag::UnknownList => "</p><ul>",
            Tag::UnknownRow => "<li>",
            Tag::UnknownRowEnd => "</li>",
            Tag::UnknownEnd => "</ul></section>",
            Tag::UnknownLink => " <a class=q href=#unknown>? ",
            Tag::SignUnknown => "<i class=q title=\"not understood\">?</i> ",
            Tag::SignNeed => "<i class=q title=\"has to be run for real\">?</i> ",
            Tag::SignObserved => "<u title=\"as it was observed\">o</u> ",
            Tag::SignDoubtful =>
                " <i class=q title=\"written by a line that wasn't understood\">?</i>",
            Tag::SignDoubtfulNeed =>
                " <i class=q title=\"written by a line that has to be run for real\">?</i>",
            Tag::Map => "<div class=map>",
            Tag::BlockEnd => "</div>",
            Tag::Span => "<span>",
            Tag::MapName => "</title>",
            Tag::MapEnd => "</svg>",
            Tag::LinkEnd => "</a>",
            Tag::Key => "<form class=key>",
            Tag::KeyCancelled =>
                "<label class=c><input type=checkbox id=fc checked><i>&#10005;</i>",
            Tag::KeyChanged => "<label class=r><input type=checkbox id=fr checked><i>&#8635;</i>",
            Tag::KeyAlike => "<label class=s><input type=checkbox id=fs checked><i>=</i>",
            Tag::KeyKept => "<label class=k><input type=checkbox id=fk checked><i>&asymp;</i>",
            Tag::KeyUntouched =>
                "<label class=u><input type=checkbox id=fu checked><i>&middot;</i>",
            Tag::LabelEnd => "</label>",
            Tag::KeyEnd => "</form>",
            Tag::Cancelled =>
                "<section id=cancelled><h2>Cancelled <small>what each line led to</small></h2>",
            Tag::Restore => "<section id=restore><h2>Restore <small>",
            Tag::HeadEnd => "</small></h2>",
            Tag::Tell =>
                "<section id=tell><h2>Tell <small>nobody can take back what somebody read</small></h2>",
            Tag::Lines =>
                "<section id=lines><h2>Lines <small>open one to see why</small></h2><div class=t>",
            Tag::LinesEnd => "</div></section>",
            Tag::SectionEnd => "</section>",
            Tag::Person => "<h3>",
            Tag::PersonEnd => "</h3>",
            Tag::Effect => "<details class=\"f c\"><summary><i>",
            Tag::Leak => "<mark>",
            Tag::LeakEnd => "</mark>",
            Tag::Modified => "<details class=\"f change\"><summary><i>M</i><code>",
            Tag::Added => "<details class=\"f restore\"><summary><i>A</i><code>",
            Tag::Removed => "<details class=\"f remove\"><summary><i>D</i><code>",
            Tag::Undecided =>
                "<details class=f><summary><i class=q title=\"written by a line that has to be run for real\">?</i><code>",
            Tag::Subject => "<details class=f><summary><i>",
            Tag::Times => "&times;</i><code>",
            Tag::EffectName => "</i> <b class=who>",
            Tag::EffectCode => "</b> <code>",
            Tag::RowDetail => "</code><span>",
            Tag::RowBody => "</span></summary>",
            Tag::DetailsEnd => "</details>\n",
            Tag::Command => "<pre class=cmd>",
            Tag::Pre => "<pre>\n",
            Tag::Diff => "<pre class=diff>",
            Tag::PreEnd => "</pre>",
            Tag::Cut => "<u>",
            Tag::CutEnd => "</u>",
            Tag::More => " <small>",
            Tag::MoreEnd => "</small>",
            Tag::Nothing => "<u>nothing</u>",
            Tag::Delete => "<del>",
            Tag::DeleteEnd => "</del>",
            Tag::Insert => "<ins>",
            Tag::InsertEnd => "</ins>",
            Tag::Newline => "\n",
            Tag::Pair => "<div class=pair>",
            Tag::Saw => "<figure><figcaption>saw</figcaption><pre>\n",
            Tag::WouldSee => "<figure><figcaption>would have seen</figcaption><pre>\n",
            Tag::FigureEnd => "</pre></figure>",
            Tag::Columns => "<div class=head><b></b><time></time>",
            Tag::SpanEnd => "</span>",
            Tag::LineTime => "</b> <time>",
            Tag::LineName => "</time> <b class=who>",
            Tag::LineEnd => "</code></summary>",
            Tag::Body => "<div class=b><p class=io>line ",
            Tag::BodyName => ", session <b class=who>",
            Tag::BodyNameEnd => "</b></p>",
            Tag::Fold => "<details class=fold><summary>",
            Tag::FoldEnd => "</summary>",
            Tag::Arrow => " &larr; ",
        }
    }
}
