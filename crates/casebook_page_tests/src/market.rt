//! The market: three people, of whom one is an intruder. What is wanted is the mock's.
use crate::given::{Given, page_of};
use crate::reading::{hold_counts, hold_rows};
use casebook_view::Source;
use retro_rows::MARKET;
use std::alloc::Global;
use std::test::Fail;

/// The intruder's lines.
const CANCELLED: [u32; 5] = [3, 6, 9, 13, 18];

/// The names of the market's sessions.
pub(crate) const NAMES: [(u32, &str); 3] = [(1, "alice"), (2, "bob"), (3, "mallory")];

/// The rows of cancelled lines.
const CANCELLED_ROWS: &str = "\
3 mallory echo apple 1 &gt; /srv/prices 4 lines
6 mallory echo Bob: see /tmp/offer &gt;&gt; /etc/motd 2 lines
9 mallory echo free apples &gt; /tmp/offer 1 line
13 mallory &gt; /home/alice/notes 2 lines
18 mallory cat /home/bob/report 8 bytes seen
";

/// The rows of paths to restore.
const RESTORE_ROWS: &str = "\
M /etc/motd Bob: see /tmp/offer
M /home/alice/notes remember the pears 1 more
M /home/bob/report apple 1 apple 3 2 more
M /srv/prices apple 1 apple 3 2 more
M /srv/summary apple 1 apple 3 6 more
D /tmp/offer free apples
";

/// The rows of what sessions are told.
const TELL_ROWS: &str = "\
1&times; /srv/prices apple 1 apple 3 2 more
2&times; /home/alice/notes remember the pears 1 more
1&times; /srv/summary apple 1 apple 3 6 more
1&times; /etc/motd Bob: see /tmp/offer remember the pears 1 more
1&times; /srv/prices apple 1 apple 3 2 more
1&times; /etc/motd Bob: see /tmp/offer
1&times; /tmp/offer free apples cat: /tmp/offer: No such file or …
";

/// The rows of lines.
const LINE_ROWS: &str = "\
1 alice &middot; cat /etc/motd
2 alice &middot; echo plum 5 &gt;&gt; /srv/prices
3 mallory &#10005; echo apple 1 &gt; /srv/prices
4 bob &#8635; cat /srv/prices &gt; report; cat report
5 alice &middot; echo remember the pears &gt; notes
6 mallory &#10005; echo Bob: see /tmp/offer &gt;&gt; /etc/motd
7 bob &#8635; cat /etc/motd
8 bob &asymp; echo fig 7 &gt;&gt; /srv/prices
9 mallory &#10005; echo free apples &gt; /tmp/offer
10 bob &#8635; cat /tmp/offer
11 alice &#8635; cat /srv/prices
12 alice &middot; echo order more figs &gt;&gt; notes
13 mallory &#10005; &gt; /home/alice/notes
14 alice &#8635; cat notes
15 alice &#8635; echo call Bob &gt;&gt; notes; cat notes
16 bob &#8635; cat report /srv/prices &gt; /srv/summary
17 alice &#8635; cat /srv/summary
18 mallory &#10005; cat /home/bob/report
19 bob &middot; cat none; echo looked
20 alice &#8635; cat /etc/motd notes
";

/// Parts of the page, and how often each is in it. Alice has 9 lines, Bob 6 and Mallory 5, each
/// with a name in the closed and in the open row, and Mallory's also among the cancelled ones.
const PARTS: [(&str, usize); 31] = [
    ("<title>The market</title>", 1),
    ("<h1>The market</h1>", 1),
    (
        "Without the 5 cancelled lines, <strong>6 paths</strong> would differ and ",
        1,
    ),
    (
        "<strong>2 sessions</strong> would have seen something else on <strong>8 screens</strong>. ",
        1,
    ),
    (
        "20 lines of 3 sessions. Played in Retro&#39;s shell. Whether the machine did the same isn&#39;t known.</p>",
        1,
    ),
    ("<i>&#10005;</i>5 cancelled</label>", 1),
    ("<i>&middot;</i>5 untouched</label>", 1),
    ("<h3>alice</h3>", 1),
    ("<h3>mallory</h3>", 0),
    ("<details id=l", 20),
    (" class=\"l c\">", 5),
    (" class=\"l r w\">", 8),
    (" class=\"l r\">", 1),
    (" class=\"l k\">", 1),
    (" class=\"l u\">", 5),
    ("class=fold", 0),
    ("style=\"--p:100;--q:0\"", 1),
    ("style=\"--p:50;--q:0\"", 2),
    (
        "<p class=io>lines <a href=\"#l14\">14</a> <a href=\"#l15\">15</a></p>",
        1,
    ),
    ("<p class=io>read /home/bob/report</p>", 2),
    ("<p class=io>wrote /srv/prices</p>", 1),
    (
        "<u>@@ -1,2 +1,4 @@</u>\n<del>-apple 1</del>\n<ins>+apple 3</ins>\n<ins>+pear 4</ins>\n\
<ins>+plum 5</ins>\n fig 7\n</pre>",
        1,
    ),
    ("<u>@@ -1 +0,0 @@</u>\n<del>-free apples</del>\n</pre>", 1),
    (
        "<a href=\"#l16\">16</a> &larr; <a href=\"#l4\">4</a> &larr; <a href=\"#l3\">3</a></p>",
        1,
    ),
    ("<pre>\n<u>nothing</u></pre>", 2),
    (
        "<p class=io>line 3, session <b class=who>mallory</b></p>",
        1,
    ),
    ("<p class=io>line 4, session <b class=who>bob</b></p>", 1),
    ("<p class=io>line 20, session <b class=who>alice</b></p>", 1),
    ("<b class=who>alice</b>", 18),
    ("<b class=who>bob</b>", 12),
    ("<b class=who>mallory</b>", 15),
];

/// Returns the market without some of its lines.
pub(crate) fn market(cancelled: &[u32]) -> Given<'_> {
    Given {
        script: MARKET,
        cancelled,
        names: &NAMES,
        title: "The market",
        shows_all: false,
        source: Source::Played,
        is_recording: true,
    }
}

/// Compares the rows of each section.
fn hold_sections(alloc: Global, page: &str) -> Result<(), Fail> {
    hold_rows(alloc, page, "cancelled", CANCELLED_ROWS)?;
    hold_rows(alloc, page, "restore", RESTORE_ROWS)?;
    hold_rows(alloc, page, "tell", TELL_ROWS)?;
    hold_rows(alloc, page, "lines", LINE_ROWS)
}

#[test]
fn the_market_is_as_the_mock(rt: HostRuntime) -> Result<(), Fail> {
    let alloc = rt.alloc();
    let page = page_of(alloc, market(&CANCELLED))?;
    hold_sections(alloc, page.as_str())?;
    hold_counts(alloc, page.as_str(), &PARTS)
}
