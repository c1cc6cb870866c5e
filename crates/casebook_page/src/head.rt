//! The head of a page: its title and style, its first sentences, and the boxes that hide lines.
ghost use Rattle.std.specs.Prelude.{◌≡◌, ◌++◌, ◌∷◌, [], IfOk, IsTrue, OnOk, length, map};
ghost use Rattle.casebook_text.specs.SafeLine.{safe_bytes, word_bytes};
ghost use Rattle.casebook_view.specs.Sources.{seen_view, source_view};
ghost use Rattle.casebook_summary.specs.Counts.{sessions_told};
ghost use Rattle.casebook_summary.specs.Words.{played_words};
ghost use Rattle.casebook_html.specs.Page.{is_words};
ghost use Rattle.casebook_page.specs.Told.{basis_told, box_of, box_told, counts_told, key_told, lead_told};
ghost use Rattle.casebook_page.specs.Told.{link_told, observed_told, said, seen_told};
ghost use Rattle.casebook_page.specs.Told.{rests_told, title_told};
ghost use Rattle.casebook_page.specs.Views.{contents_view};
ghost use Rattle.casebook_html.specs.declared.piece.Piece.TheVariants.{Fixed, Number, Text as Told};

use crate::NoMem;
use crate::contents::Contents;
use crate::shown::push_links;
use crate::unknown::push_unknown_link;
use casebook_html::{Html, NumberTag, Tag};
use casebook_summary::{Notice, Summary, played_words, sessions_of, sessions_told};
use casebook_text::SafeLine;
use casebook_view::{Fate, Seen, Source};
use retro_tree::Text;
use std::alloc::Global;

/// Returns the title as a line.
fn title_line(alloc: Global, title: &str) -> Result<SafeLine, NoMem>
    ensures { IfOk result (λ line. line ≡ safe_bytes title.now) }
{
    let mut line = SafeLine::new(alloc);
    line.push_bytes(alloc, title.as_bytes())?;
    Ok(line)
}

/// Appends the rest of the page's head after its policy, which forbids a network and all scripts
/// but this one: the title and the style. Then the header comes.
pub(crate) fn push_head(
    html: &mut Html,
    alloc: Global,
    title: &str,
    sessions: usize,
) -> Result<(), NoMem>
    ensures { OnOk result (html.new ≡ html.old ++ title_told title.now) }
{
    html.text(title_line(alloc, title)?)?;
    html.fixed(Tag::Style)?;
    html.numbered(NumberTag::Body, sessions as u64)?;
    html.text(title_line(alloc, title)?)?;
    html.fixed(Tag::Header)
}

/// Appends how many sessions would have seen something else, on how many screens.
fn push_told(html: &mut Html, alloc: Global, notices: &[Notice]) -> Result<(), NoMem>
    ensures { OnOk result (html.new ≡ html.old
        ++ Number (length (sessions_told notices.now)) ∷ Number (length notices.now) ∷ []) }
{
    let sessions = sessions_told(alloc, notices)?;
    html.fixed(Tag::Strong)?;
    html.count(sessions.len(), "session")?;
    html.fixed(Tag::StrongEnd)?;
    html.words(" would have seen something else on ")?;
    html.fixed(Tag::Strong)?;
    html.count(notices.len(), "screen")?;
    html.fixed(Tag::StrongEnd)
}

/// Appends how many lines of a machine's recording stand as they were observed, or that each did
/// what Retro's shell does.
fn push_observed(html: &mut Html, alloc: Global, count: usize) -> Result<(), NoMem>
    ensures { OnOk result (html.new ≡ html.old ++ observed_told count) }
{
    html.words(". Recorded on the machine. ")?;
    if count == 0 {
        return html.said(alloc, "Each line did what Retro's shell does.");
    }
    html.count(count, "line")?;
    if count == 1 {
        html.words(" stands as it was observed.")
    } else {
        html.words(" stand as they were observed.")
    }
}

/// Appends which lines some words are about, if there are some.
fn push_numbered(html: &mut Html, words: &'static str, numbers: &[u32]) -> Result<(), NoMem>
    requires { IsTrue (is_words words.now) }
    ensures { OnOk result (html.new ≡ html.old ++ map link_told numbers.now) }
{
    if numbers.is_empty() {
        return Ok(());
    }
    html.words(words)?;
    push_links(html, numbers)?;
    html.words(".")
}

/// Appends numbers, each after a space.
fn push_numbers(html: &mut Html, numbers: &[u32]) -> Result<(), NoMem>
    ensures { OnOk result (html.new ≡ html.old ++ map Number numbers.now) }
{
    for number in numbers {
        html.words(" ")?;
        html.number(u64::from(*number))?;
    }
    Ok(())
}

/// Appends of which sessions some lines have no record, if there are some.
fn push_incomplete(html: &mut Html, numbers: &[u32]) -> Result<(), NoMem>
    ensures { OnOk result (html.new ≡ html.old ++ map Number numbers.now) }
{
    if numbers.is_empty() {
        return Ok(());
    }
    html.words(" Lines without a record: sessions")?;
    push_numbers(html, numbers)?;
    html.words(".")
}

/// Appends a folder after a space.
fn push_folder(html: &mut Html, alloc: Global, folder: &Text) -> Result<(), NoMem>
    ensures { OnOk result (html.new ≡ html.old ++ Told (word_bytes folder.now) ∷ []) }
{
    let mut line = SafeLine::new(alloc);
    line.push_word(alloc, folder.as_str().as_bytes())?;
    html.words(" ")?;
    html.text(line)
}

/// Appends folders, each after a space.
fn push_folders(html: &mut Html, alloc: Global, folders: &[Text]) -> Result<(), NoMem>
    ensures { OnOk result (html.new
        ≡ html.old ++ map (λ folder. Told (word_bytes folder)) folders.now) }
{
    for folder in folders {
        push_folder(html, alloc, folder)?;
    }
    Ok(())
}

/// Appends in which folders it wasn't always seen what lines only read, if there are some.
fn push_unseen(html: &mut Html, alloc: Global, folders: &[Text]) -> Result<(), NoMem>
    ensures { OnOk result (html.new
        ≡ html.old ++ map (λ folder. Told (word_bytes folder)) folders.now) }
{
    if folders.is_empty() {
        return Ok(());
    }
    html.words(" What lines only read wasn't always seen in")?;
    push_folders(html, alloc, folders)?;
    html.words(".")
}

/// Appends what a recorder says of its lines.
fn push_seen(html: &mut Html, alloc: Global, seen: Seen<'_>) -> Result<(), NoMem>
    ensures { OnOk result (html.new ≡ html.old ++ seen_told (seen_view seen.entry)) }
{
    push_observed(html, alloc, seen.observed.len())?;
    push_numbered(
        html,
        " Not told apart, since they overlap: lines",
        seen.overlapping,
    )?;
    push_numbered(
        html,
        " Changes outside of the recorded sessions: lines",
        seen.outside,
    )?;
    push_incomplete(html, seen.incomplete)?;
    push_unseen(html, alloc, seen.unseen)
}

/// Appends what an answer about lines rests on that were played.
fn push_played(html: &mut Html, alloc: Global, is_recording: bool) -> Result<(), NoMem>
    ensures { OnOk result (html.new ≡ html.old ++ said (played_words is_recording)) }
{
    html.words(". ")?;
    html.said(alloc, played_words(is_recording))
}

/// Appends how the log came about: from a machine, by playing its lines, or otherwise.
fn push_basis(
    html: &mut Html,
    alloc: Global,
    source: Source<'_>,
    is_recording: bool,
) -> Result<(), NoMem>
    ensures { OnOk result (html.new
        ≡ html.old ++ basis_told (source_view source.entry) is_recording) }
{
    match source {
        Source::Seen(seen) => push_seen(html, alloc, seen),
        Source::Played => push_played(html, alloc, is_recording),
    }
}

/// Appends what the page rests on: how many lines and sessions the log has, how it came about, and
/// how many of the lines weren't understood or have to be run for real.
fn push_rests(html: &mut Html, alloc: Global, contents: Contents<'_, '_>) -> Result<(), NoMem>
    ensures { OnOk result (html.new ≡ html.old ++ rests_told (contents_view contents.entry)) }
{
    let lines = contents.summary.lines.as_slice();
    let source = contents.case.source();
    html.count(lines.len(), "line")?;
    html.words(" of ")?;
    html.count(sessions_of(alloc, lines)?.len(), "session")?;
    push_basis(html, alloc, source, contents.summary.is_recording)?;
    push_unknown_link(html, source, contents.summary.unknown.as_slice())
}

/// Appends how many paths and screens differ without the cancelled lines.
fn push_counts(html: &mut Html, alloc: Global, summary: &Summary) -> Result<(), NoMem>
    ensures { OnOk result (html.new ≡ html.old ++ counts_told summary.now) }
{
    html.words("Without the ")?;
    html.count(summary.count(Fate::Cancelled), "cancelled line")?;
    html.words(", ")?;
    html.fixed(Tag::Strong)?;
    html.count(summary.restorations.len(), "path")?;
    html.fixed(Tag::StrongEnd)?;
    html.words(" would differ and ")?;
    push_told(html, alloc, summary.notices.as_slice())?;
    html.words(". ")
}

/// Appends the page's first sentences: how many paths and screens differ, and what that rests on.
pub(crate) fn push_lead(
    html: &mut Html,
    alloc: Global,
    contents: Contents<'_, '_>,
) -> Result<(), NoMem>
    ensures { OnOk result (html.new ≡ html.old ++ lead_told (contents_view contents.entry)) }
{
    html.fixed(Tag::Lead)?;
    push_counts(html, alloc, contents.summary)?;
    push_rests(html, alloc, contents)?;
    html.fixed(Tag::ParagraphEnd)
}

/// Appends the start of the box of a fate.
fn push_box_start(html: &mut Html, fate: Fate) -> Result<(), NoMem>
    ensures { OnOk result (html.new ≡ html.old ++ Fixed (box_of fate) ∷ []) }
{
    match fate {
        Fate::Cancelled => html.sign(Tag::KeyCancelled),
        Fate::Changed => html.sign(Tag::KeyChanged),
        Fate::Alike => html.sign(Tag::KeyAlike),
        Fate::Kept => html.sign(Tag::KeyKept),
        Fate::Untouched => html.sign(Tag::KeyUntouched),
    }
}

/// Appends what becomes of lines with a fate.
fn push_fate(html: &mut Html, fate: Fate) -> Result<(), NoMem>
    ensures { OnOk result (html.new ≡ html.old) }
{
    match fate {
        Fate::Cancelled => html.words(" cancelled"),
        Fate::Changed => html.words(" run again, another result"),
        Fate::Alike => html.words(" run again, the same result"),
        Fate::Kept => html.words(" met, kept"),
        Fate::Untouched => html.words(" untouched"),
    }
}

/// Appends the box that shows or hides the lines of a fate, and how many there are.
#[tactic(auto, unfolding(crate::specs::Told::box_told))]
fn push_box(html: &mut Html, summary: &Summary, fate: Fate) -> Result<(), NoMem>
    ensures { OnOk result (html.new ≡ html.old ++ box_told summary.now.lines fate) }
{
    push_box_start(html, fate)?;
    html.number(summary.count(fate) as u64)?;
    push_fate(html, fate)?;
    html.fixed(Tag::LabelEnd)
}

/// Appends the boxes that show and hide lines.
pub(crate) fn push_key(html: &mut Html, summary: &Summary) -> Result<(), NoMem>
    ensures { OnOk result (html.new ≡ html.old ++ key_told summary.now.lines) }
{
    html.fixed(Tag::Key)?;
    push_box(html, summary, Fate::Cancelled)?;
    push_box(html, summary, Fate::Changed)?;
    push_box(html, summary, Fate::Alike)?;
    push_box(html, summary, Fate::Kept)?;
    push_box(html, summary, Fate::Untouched)?;
    html.fixed(Tag::KeyEnd)
}
