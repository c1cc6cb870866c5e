//! Pages of the market without any or without all lines, and of an empty log.
use crate::given::{Given, page_of};
use crate::market::market;
use crate::reading::hold_counts;
use casebook_view::Source;
use std::test::Fail;

/// All lines of the market.
const ALL: [u32; 20] = [
    1, 2, 3, 4, 5, 6, 7, 8, 9, 10, 11, 12, 13, 14, 15, 16, 17, 18, 19, 20,
];

/// Parts of the page of the market with no line cancelled.
const NOTHING: [(&str, usize); 8] = [
    ("Without the 0 cancelled lines, <strong>0 paths</strong>", 1),
    ("<strong>0 sessions</strong>", 1),
    ("<small>0 change, 0 come back, 0 go</small>", 1),
    ("<p class=io>none</p>", 3),
    ("<details id=l", 20),
    (" class=\"l u\">", 20),
    ("<details class=fold><summary>20 untouched</summary>", 1),
    ("<details class=\"f", 0),
];

/// Parts of the page of the market with all lines cancelled.
const EVERYTHING: [(&str, usize); 8] = [
    (
        "Without the 20 cancelled lines, <strong>6 paths</strong>",
        1,
    ),
    ("<strong>0 sessions</strong>", 1),
    ("<small>2 change, 0 come back, 4 go</small>", 1),
    ("<details id=l", 20),
    (" class=\"l c\">", 20),
    ("<details class=\"f c\">", 20),
    ("class=fold", 0),
    ("<h3>", 0),
];

/// Parts of the page of an empty log.
const EMPTY: [(&str, usize); 4] = [
    ("0 lines of 0 sessions.", 1),
    ("<p class=io>none</p>", 3),
    ("<details", 0),
    ("</body></html>", 1),
];

#[test]
fn nothing_is_cancelled(rt: HostRuntime) -> Result<(), Fail> {
    let alloc = rt.alloc();
    let page = page_of(alloc, market(&[]))?;
    hold_counts(alloc, page.as_str(), &NOTHING)
}

#[test]
fn everything_is_cancelled(rt: HostRuntime) -> Result<(), Fail> {
    let alloc = rt.alloc();
    let page = page_of(alloc, market(&ALL))?;
    hold_counts(alloc, page.as_str(), &EVERYTHING)
}

#[test]
fn a_log_is_empty(rt: HostRuntime) -> Result<(), Fail> {
    let alloc = rt.alloc();
    let given = Given {
        script: r#"{"script":1,"tree":[],"sessions":[],"lines":[]}"#,
        cancelled: &[],
        names: &[],
        title: "",
        shows_all: false,
        source: Source::Played,
        is_recording: true,
    };
    let page = page_of(alloc, given)?;
    hold_counts(alloc, page.as_str(), &EMPTY)
}
