//! Why lines are run again, in words.
ghost use Rattle.std.specs.Prelude.{◌≡◌, ◌++◌, OnOk, map};
ghost use Rattle.casebook_page.specs.Told.{link_told, why_told};
ghost use Rattle.casebook_page.specs.Views.{contents_view};

use crate::NoMem;
use crate::contents::Contents;
use crate::shown::push_link;
use casebook_html::{Html, Tag};
use casebook_summary::why_line;
use casebook_view::CaseLine;
use std::alloc::Global;

/// Appends causes, one after another.
fn push_causes(html: &mut Html, causes: &[u32]) -> Result<(), NoMem>
    ensures { OnOk result (html.new ≡ html.old ++ map link_told causes.now) }
{
    let mut is_first = true;
    for cause in causes {
        if is_first {
            html.words(", because of ")?;
        } else {
            html.fixed(Tag::Arrow)?;
        }
        push_link(html, *cause)?;
        is_first = false;
    }
    Ok(())
}

/// Appends why a line is run again, and the chain of lines that it comes from, if it is.
pub(crate) fn push_why(
    html: &mut Html,
    alloc: Global,
    contents: Contents<'_, '_>,
    line: &CaseLine,
) -> Result<(), NoMem>
    ensures { OnOk result (html.new ≡ html.old
        ++ why_told (contents_view contents.entry) line.now.number line.now.reason) }
{
    let Some(reason) = &line.reason else {
        return Ok(());
    };
    let causes = contents.summary.lines.chain(alloc, line.number)?;
    html.fixed(Tag::Paragraph)?;
    html.text(why_line(alloc, contents.case, line.number, reason)?)?;
    push_causes(html, causes.as_slice())?;
    html.fixed(Tag::ParagraphEnd)
}
