//! What a page says.
use retro_rows::fail;
use std::alloc::Global;
use std::test::Fail;

/// Fails if a text isn't as wanted.
pub(crate) fn compare(alloc: Global, text: &str, wanted: &str) -> Result<(), Fail> {
    if text != wanted {
        let told = format!(in alloc; "returned: {text}\nwanted:   {wanted}")?;
        Err(told)?
    }
    Ok(())
}

/// Fails if a text doesn't have a part as often as wanted.
fn hold_count(alloc: Global, text: &str, part: &str, wanted: usize) -> Result<(), Fail> {
    let count = text.split(part).count().saturating_sub(1);
    if count != wanted {
        let told = format!(in alloc; "{count} times, and not {wanted} times: {part}")?;
        Err(told)?
    }
    Ok(())
}

/// Fails if a text doesn't have each of some parts as often as wanted.
pub(crate) fn hold_counts(alloc: Global, text: &str, wanted: &[(&str, usize)]) -> Result<(), Fail> {
    for (part, count) in wanted {
        hold_count(alloc, text, part, *count)?;
    }
    Ok(())
}

/// Returns what stands between two texts.
pub(crate) fn between<'a>(text: &'a str, from: &str, to: &str) -> Result<&'a str, Fail> {
    let Some((_, rest)) = text.split_once(from) else {
        return fail("a text has no start");
    };
    match rest.split_once(to) {
        Some((found, _)) => Ok(found),
        None => fail("a text has no end"),
    }
}

/// Returns a part of a page without its tags. One space takes the place of tags and spaces between
/// words.
fn without_tags(alloc: Global, html: &str) -> Result<Vec<u8>, Fail> {
    let mut text = Vec::new(alloc);
    let mut is_tag = false;
    let mut is_apart = false;
    for byte in html.as_bytes() {
        is_tag = is_tag || *byte == b'<';
        if is_tag || *byte == b' ' {
            is_apart = !text.is_empty();
        } else {
            if is_apart {
                text.push(b' ')?;
            }
            text.push(*byte)?;
            is_apart = false;
        }
        is_tag = is_tag && *byte != b'>';
    }
    Ok(text)
}

/// Appends the closed row that begins a part of a page, without its tags, and a newline.
fn push_row(alloc: Global, rows: &mut Vec<u8>, part: &str) -> Result<(), Fail> {
    if let Some((row, _)) = part.split_once("</summary>") {
        let text = without_tags(alloc, row)?;
        rows.extend_from_slice(text.as_slice())?;
        rows.push(b'\n')?;
    }
    Ok(())
}

/// Returns what the closed rows of a part of a page show, each with a newline after it.
fn rows_of(alloc: Global, section: &str) -> Result<Vec<u8>, Fail> {
    let mut rows = Vec::new(alloc);
    for part in section.split("<summary>").skip(1) {
        push_row(alloc, &mut rows, part)?;
    }
    Ok(rows)
}

/// Fails if the closed rows of a section aren't as wanted.
pub(crate) fn hold_rows(
    alloc: Global,
    page: &str,
    section: &str,
    wanted: &str,
) -> Result<(), Fail> {
    let start = format!(in alloc; "<section id={section}>")?;
    let rows = rows_of(alloc, between(page, start.as_str(), "</section>")?)?;
    match std::str::from_utf8(rows.as_slice()) {
        Ok(text) => compare(alloc, text, wanted),
        Err(_) => fail("a page isn't UTF-8"),
    }
}
