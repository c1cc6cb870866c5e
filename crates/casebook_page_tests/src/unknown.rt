//! Pages of logs with lines that aren't understood.
use crate::given::{Given, page_of};
use crate::reading::hold_counts;
use casebook_view::Source;
use std::test::Fail;

/// A script with three such lines: a command that isn't known, a pattern, and a form of `grep` that
/// isn't there, which empties a file that line 5 reads.
const SCRIPT: &str =
    "{\"script\":1,\"tree\":[[\"/f\",\"780a\"]],\"sessions\":[[1,\"/\",0,[]],[2,\"/\",0,[]]],
    \"lines\":[[1,1,\"ls\"],[2,1,\"cat *\"],[3,2,\"grep x f > g\"],[4,1,\"cat f\"],[5,2,\"cat g\"]]}";

/// Parts of the page without lines 1 and 3.
const UNKNOWN: [(&str, usize); 10] = [
    (
        " <a class=q href=#unknown>? 3 lines weren&#39;t understood.</a></p>",
        1,
    ),
    (
        "<section class=doubt id=unknown><p><i class=q>?</i> 3 lines weren&#39;t understood, 2 of them cancelled. What they did isn&#39;t in this answer.</p>",
        1,
    ),
    (
        "<li>1 a command that Retro doesn&#39;t know: <a href=\"#l1\">1</a></li>",
        1,
    ),
    (
        "<li>1 an option or form that it doesn&#39;t have: <a href=\"#l3\">3</a></li>",
        1,
    ),
    (
        "<li>1 a pattern or value that a shell expands: <a href=\"#l2\">2</a></li>",
        1,
    ),
    (
        "not understood: a pattern or value that a shell expands</p>",
        1,
    ),
    ("<i class=q title=\"not understood\">?</i> ", 8),
    ("what it did isn&#39;t known", 2),
    ("title=\"written by a line that wasn't understood\"", 1),
    ("<mark>", 0),
];

#[test]
fn lines_that_are_not_understood_are_named(rt: HostRuntime) -> Result<(), Fail> {
    let alloc = rt.alloc();
    let given = Given {
        script: SCRIPT,
        cancelled: &[1, 3],
        names: &[],
        title: "",
        shows_all: false,
        source: Source::Played,
        is_recording: true,
    };
    let page = page_of(alloc, given)?;
    hold_counts(alloc, page.as_str(), &UNKNOWN)
}
