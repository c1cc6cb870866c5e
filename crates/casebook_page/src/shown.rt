//! What several sections show: signs of lines, links to them, texts of lines and paths.
ghost use Rattle.std.specs.Prelude.{◌≡◌, ◌++◌, ◌∷◌, [], IfOk, OnOk, map};
ghost use Rattle.std.specs.Option.{option_copied};
ghost use Rattle.casebook_page.specs.Told.{command_told, link_of, link_told, name_told};
ghost use Rattle.casebook_page.specs.Told.{owner_told, path_told, sign_of, text_of};
ghost use Rattle.casebook_page.specs.Views.{contents_view};
ghost use Rattle.casebook_html.specs.declared.piece.Piece.TheVariants.{Fixed, Link};

use crate::NoMem;
use crate::contents::Contents;
use casebook_about::Labels;
use casebook_html::{Html, NumberTag, Tag};
use casebook_text::SafeLine;
use casebook_view::{Case, CaseLine, Fate, Obstacle};
use casebook_words::push_path;
use retro_keep::Noted;
use retro_tree::Path;
use std::alloc::Global;

/// Appends the sign of a line that isn't understood, has to be run for real, or was observed.
pub(crate) fn push_sign(html: &mut Html, obstacle: Obstacle) -> Result<(), NoMem>
    ensures { OnOk result (html.new ≡ html.old ++ Fixed (sign_of obstacle) ∷ []) }
{
    match obstacle {
        Obstacle::Command | Obstacle::Form | Obstacle::Expansion | Obstacle::Terminal => html.sign(
            Tag::SignUnknown,
        ),
        Obstacle::Need => html.sign(Tag::SignNeed),
        Obstacle::Observed => html.sign(Tag::SignObserved),
    }
}

/// Appends the number of a line as a link to its row.
pub(crate) fn push_link(html: &mut Html, number: u32) -> Result<(), NoMem>
    ensures { OnOk result (html.new ≡ html.old ++ link_told number ∷ []) }
{
    html.link(NumberTag::Link, number)
}

/// Appends links to lines, with a space before each.
pub(crate) fn push_links(html: &mut Html, numbers: &[u32]) -> Result<(), NoMem>
    ensures { OnOk result (html.new ≡ html.old ++ map link_told numbers.now) }
{
    for number in numbers {
        html.words(" ")?;
        push_link(html, *number)?;
    }
    Ok(())
}

/// Appends a link to a line in the colour of its fate.
fn push_fated_link(html: &mut Html, line: &CaseLine) -> Result<(), NoMem>
    ensures { OnOk result (html.new
        ≡ html.old ++ Link (link_of line.now.fate) line.now.number ∷ []) }
{
    match line.fate {
        Fate::Changed => html.link(NumberTag::LinkChanged, line.number),
        Fate::Alike => html.link(NumberTag::LinkAlike, line.number),
        Fate::Cancelled | Fate::Kept | Fate::Untouched => html.link(NumberTag::Link, line.number),
    }
}

/// Appends links to lines in the colours of their fates, with a space before each.
pub(crate) fn push_fated_links(html: &mut Html, lines: &[CaseLine]) -> Result<(), NoMem>
    ensures { OnOk result (html.new
        ≡ html.old ++ map (λ line. Link (link_of line.fate) line.number) lines.now) }
{
    for line in lines {
        html.words(" ")?;
        push_fated_link(html, line)?;
    }
    Ok(())
}

/// Appends what a session is called.
pub(crate) fn push_name(
    html: &mut Html,
    alloc: Global,
    labels: &Labels,
    session: u32,
) -> Result<(), NoMem>
    ensures { OnOk result (html.new ≡ html.old ++ name_told labels.now session ∷ []) }
{
    let name = labels.name_of(alloc, session)?;
    html.text(name)
}

/// Appends what the session of the line with a number is called.
pub(crate) fn push_owner(
    html: &mut Html,
    alloc: Global,
    contents: Contents<'_, '_>,
    number: u32,
) -> Result<(), NoMem>
    ensures { OnOk result (html.new
        ≡ html.old ++ owner_told (contents_view contents.entry) number ∷ []) }
{
    push_name(
        html,
        alloc,
        contents.labels,
        contents.case.session_of(number),
    )
}

/// Returns the text of a line, or nothing if there is no line.
fn text_of(alloc: Global, noted: Option<&Noted>) -> Result<SafeLine, NoMem>
    ensures { IfOk result (λ line. line ≡ text_of (option_copied noted.entry)) }
{
    let mut line = SafeLine::new(alloc);
    if let Some(noted) = noted {
        line.push_bytes(alloc, noted.text.bytes())?;
    }
    Ok(line)
}

/// Appends the text of the line with a number.
pub(crate) fn push_command(
    html: &mut Html,
    alloc: Global,
    case: &Case<'_>,
    number: u32,
) -> Result<(), NoMem>
    ensures { OnOk result (html.new
        ≡ html.old ++ command_told case.now.recording number ∷ []) }
{
    let text = text_of(alloc, case.recorded(number))?;
    html.text(text)
}

/// Appends a path.
pub(crate) fn push_shown_path(html: &mut Html, alloc: Global, path: &Path) -> Result<(), NoMem>
    ensures { OnOk result (html.new ≡ html.old ++ path_told path.now ∷ []) }
{
    let mut line = SafeLine::new(alloc);
    push_path(alloc, &mut line, path)?;
    html.text(line)
}

/// Appends paths, with a comma between them. No path has a space in it, as it is shown.
pub(crate) fn push_paths(html: &mut Html, alloc: Global, paths: &[Path]) -> Result<(), NoMem>
    ensures { OnOk result (html.new ≡ html.old ++ map path_told paths.now) }
{
    let mut is_first = true;
    for path in paths {
        if !is_first {
            html.words(", ")?;
        }
        push_shown_path(html, alloc, path)?;
        is_first = false;
    }
    Ok(())
}

/// Appends that a section has no rows, if it has none.
pub(crate) fn push_none(html: &mut Html, rows: usize) -> Result<(), NoMem>
    ensures { OnOk result (html.new ≡ html.old) }
{
    if rows > 0 {
        return Ok(());
    }
    html.fixed(Tag::Small)?;
    html.words("none")?;
    html.fixed(Tag::ParagraphEnd)
}
