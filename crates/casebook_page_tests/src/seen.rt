//! Pages of logs whose lines a recorder saw on a machine.
use crate::given::{Given, page_by, page_of};
use crate::reading::hold_counts;
use casebook_view::{Seen, Source};
use retro_keep::Edit;
use retro_tree::Text;
use std::alloc::Global;
use std::test::Fail;

/// A script. Without line 1, lines 2 and 5 read another text, and line 5 writes it to a file, and the
/// same text as before to another one. Lines 3 and 4 depend on nothing of it.
const SCRIPT: &str =
    "{\"script\":1,\"tree\":[[\"/f\",\"780a\"]],\"sessions\":[[1,\"/\",0,[]],[2,\"/\",0,[]]],
    \"lines\":[[1,2,\"echo a > f\"],[2,1,\"cat f\"],[3,1,\"echo b > g\"],[4,2,\"cat g\"],[5,1,\"cat f > h; echo c > i\"]]}";

/// Parts of the page without line 1, if lines 2, 3 and 5 were observed. A sign is in the closed and
/// in the open row of its line.
const TWO: [(&str, usize); 13] = [
    (
        "5 lines of 2 sessions. Recorded on the machine. 3 lines stand as they were observed. <a class=q href=#unknown>? 2 lines have to be run for real.</a></p>",
        1,
    ),
    (
        "<section class=doubt id=unknown><p><i class=q>?</i> 2 lines have to be run for real before this answer is whole. Until then they stand as they were observed.</p><ul><li>2 what they depend on would be another: <a href=\"#l2\">2</a> <a href=\"#l5\">5</a></li></ul></section>",
        1,
    ),
    ("<i class=q title=\"has to be run for real\">?</i> ", 4),
    (
        "<p><i class=q title=\"has to be run for real\">?</i> has to be run for real: what it depends on would be another</p>",
        2,
    ),
    ("<u title=\"as it was observed\">o</u> ", 2),
    (
        "<u title=\"as it was observed\">o</u> echo b &gt; g</code>",
        1,
    ),
    (
        "<p class=io><u title=\"as it was observed\">o</u> as it was observed: not in Retro&#39;s shell, or it did something else</p>",
        1,
    ),
    (
        " <i class=q title=\"written by a line that has to be run for real\">?</i>",
        1,
    ),
    (
        "<details class=f><summary><i class=q title=\"written by a line that has to be run for real\">?</i><code>/i</code><span></span></summary><p class=io>as it was recorded, until the lines that wrote it are run for real</p></details>\n",
        1,
    ),
    (
        "<p class=io>none</p><p>Who looked by observed lines, at what would be another:</p><h3>1</h3><details class=f><summary><i>2&times;</i><code>/f</code><span></span></summary><p class=io>lines <a href=\"#l2\">2</a> <a href=\"#l5\">5</a></p><pre class=cmd>cat f</pre></details>\n</section>",
        1,
    ),
    ("understood", 0),
    ("Played", 0),
    ("isn&#39;t", 0),
];

/// The same, if lines 2 and 3 were observed.
const ONE: [(&str, usize); 5] = [
    (
        ". 2 lines stand as they were observed. <a class=q href=#unknown>? 1 line has to be run for real.</a></p>",
        1,
    ),
    (
        "<i class=q>?</i> 1 line has to be run for real before this answer is whole. Until then it stands as it was observed.</p><ul><li>1 what it depends on would be another: <a href=\"#l2\">2</a></li></ul></section>",
        1,
    ),
    ("<i class=q title=\"has to be run for real\">?</i> ", 2),
    ("<u title=\"as it was observed\">o</u> ", 2),
    ("title=\"written by", 0),
];

/// The same, if line 3 was observed.
const NONE: [(&str, usize); 7] = [
    (
        ". Recorded on the machine. 1 line stands as it was observed.</p>",
        1,
    ),
    ("<p class=io>No line has to be run for real.</p>", 1),
    ("id=unknown", 0),
    ("class=q", 0),
    ("Who looked", 0),
    ("<u title=\"as it was observed\">o</u> ", 2),
    ("title=\"written by", 0),
];

/// The same, if no line was observed.
const ALL_MODELLED: [(&str, usize); 4] = [
    (
        ". Recorded on the machine. Each line did what Retro&#39;s shell does.</p>",
        1,
    ),
    ("<p class=io>No line has to be run for real.</p>", 1),
    ("class=q", 0),
    ("as it was observed", 0),
];

/// The same, if line 1 was observed, which is cancelled.
const CANCELLED: [(&str, usize); 4] = [
    ("<p class=io>No line has to be run for real.</p>", 1),
    (
        "<u title=\"as it was observed\">o</u> echo a &gt; f</code>",
        1,
    ),
    ("<i>&#10005;</i><u title", 1),
    ("class=q", 0),
];

/// Parts of the page with `ls` in place of line 3, which was observed, as was line 2. Line 4 reads
/// what line 3 wrote.
const REPLACED: [(&str, usize); 4] = [
    (
        "<i class=q>?</i> 1 line has to be run for real before this answer is whole. Until then it stands as it was observed.</p><ul><li>1 a command that Retro doesn&#39;t know: <a href=\"#l3\">3</a></li></ul></section>",
        1,
    ),
    ("<i class=q title=\"not understood\">?</i> ", 3),
    ("what it would do isn&#39;t known", 1),
    ("<u title=\"as it was observed\">o</u> ", 2),
];

/// Parts of the page of a log that wasn't recorded.
const OTHER: [(&str, usize); 3] = [
    (
        "5 lines of 2 sessions. The log isn&#39;t as its lines run: what was recorded is only what its notes say.</p>",
        1,
    ),
    ("<p class=io>Every line was understood.</p>", 1),
    ("observed", 0),
];

/// The same, if lines overlap, one is nobody's, and something isn't known.
const DOUBTED: [(&str, usize); 1] = [(
    ". 1 line stands as it was observed. Not told apart, since they overlap: lines <a href=\"#l2\">2</a> <a href=\"#l4\">4</a>. Changes outside of the recorded sessions: lines <a href=\"#l3\">3</a>. Lines without a record: sessions 1 2. What lines only read wasn&#39;t always seen in /srv /&lt;b&gt;.</p>",
    1,
)];

/// Returns that a recorder saw the lines, of which these stand as they were observed.
fn seen(observed: &[u32]) -> Source<'_> {
    Source::Seen(Seen {
        observed,
        overlapping: &[],
        outside: &[],
        incomplete: &[],
        unseen: &[],
    })
}

/// Returns the script without line 1.
fn given(source: Source<'_>, is_recording: bool) -> Given<'_> {
    Given {
        script: SCRIPT,
        cancelled: &[1],
        names: &[],
        title: "",
        shows_all: false,
        source,
        is_recording,
    }
}

/// Compares the page of the script without line 1, if these lines were observed. Whether the log is
/// as its lines run makes no difference.
fn hold(alloc: Global, observed: &[u32], wanted: &[(&str, usize)]) -> Result<(), Fail> {
    for is_recording in [true, false] {
        let page = page_of(alloc, given(seen(observed), is_recording))?;
        hold_counts(alloc, page.as_str(), wanted)?;
    }
    Ok(())
}

/// Returns the page of the script with edits, if these lines were observed.
fn edited<'g>(alloc: Global, observed: &'g [u32], edits: &'g [Edit]) -> Result<String, Fail> {
    page_by(alloc, given(seen(observed), true), edits)
}

#[test]
fn lines_have_to_be_run(rt: HostRuntime) -> Result<(), Fail> {
    let alloc = rt.alloc();
    hold(alloc, &[2, 3, 5], &TWO)?;
    hold(alloc, &[2, 3], &ONE)
}

#[test]
fn no_line_has_to_be_run(rt: HostRuntime) -> Result<(), Fail> {
    let alloc = rt.alloc();
    hold(alloc, &[3], &NONE)?;
    hold(alloc, &[], &ALL_MODELLED)?;
    hold(alloc, &[1], &CANCELLED)
}

#[test]
fn observed_lines_are_replaced(rt: HostRuntime) -> Result<(), Fail> {
    let alloc = rt.alloc();
    let mut edits = Vec::new(alloc);
    edits.push(Edit::Replace(3, Text::of(String::from_str(alloc, "ls")?)))?;
    let page = edited(alloc, &[2, 3], edits.as_slice())?;
    hold_counts(alloc, page.as_str(), &REPLACED)
}

#[test]
fn doubts_are_said(rt: HostRuntime) -> Result<(), Fail> {
    let alloc = rt.alloc();
    let mut unseen = Vec::new(alloc);
    for folder in ["/srv", "/<b>"] {
        unseen.push(Text::of(String::from_str(alloc, folder)?))?;
    }
    let source = Source::Seen(Seen {
        observed: &[3],
        overlapping: &[2, 4],
        outside: &[3],
        incomplete: &[1, 2],
        unseen: unseen.as_slice(),
    });
    let page = page_of(alloc, given(source, true))?;
    hold_counts(alloc, page.as_str(), &DOUBTED)
}

#[test]
fn other_logs_are_as_they_are(rt: HostRuntime) -> Result<(), Fail> {
    let alloc = rt.alloc();
    let page = page_of(alloc, given(Source::Played, false))?;
    hold_counts(alloc, page.as_str(), &OTHER)
}
