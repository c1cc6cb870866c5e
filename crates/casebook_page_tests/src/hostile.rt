//! A log whose names, lines, files and outputs would do harm if a page had them as they are.
use crate::given::{Given, page_of};
use crate::reading::hold_counts;
use casebook_view::Source;
use retro_rows::fail;
use std::alloc::Global;
use std::test::Fail;

/// The script. A file has a tag as its name and a script as its text, another one has all bytes
/// from 0 to 255, and the name of a third has an escape and a right-to-left override.
const SCRIPT: &str = r#"{
  "script": 1,
  "tree": [
    ["/d"],
    ["/d/<b title=\"q\">&lt;","3c7363726970743e616c6572742831293c2f7363726970743e0a"],
    ["/d/bytes","000102030405060708090a0b0c0d0e0f101112131415161718191a1b1c1d1e1f202122232425262728292a2b2c2d2e2f303132333435363738393a3b3c3d3e3f404142434445464748494a4b4c4d4e4f505152535455565758595a5b5c5d5e5f606162636465666768696a6b6c6d6e6f707172737475767778797a7b7c7d7e7f808182838485868788898a8b8c8d8e8f909192939495969798999a9b9c9d9e9fa0a1a2a3a4a5a6a7a8a9aaabacadaeafb0b1b2b3b4b5b6b7b8b9babbbcbdbebfc0c1c2c3c4c5c6c7c8c9cacbcccdcecfd0d1d2d3d4d5d6d7d8d9dadbdcdddedfe0e1e2e3e4e5e6e7e8e9eaebecedeeeff0f1f2f3f4f5f6f7f8f9fafbfcfdfeff"]
  ],
  "sessions": [[1,"/d",0,[]],[2,"/d",0,[]]],
  "lines": [
    [1,2,"echo '</pre></script><script>alert(1)</script><img src=x onerror=alert(2)>' > '<b title=\"q\">&lt;'"],
    [2,1,"cat '<b title=\"q\">&lt;'"],
    [3,2,"cat bytes >> '<b title=\"q\">&lt;'"],
    [4,1,"cat '<b title=\"q\">&lt;'"],
    [5,2,"echo '\u001b]0;x\u0007\u202e\u2066' > '\u202egnp.\u001b[31m'"],
    [6,1,"cat '\u202egnp.\u001b[31m'"],
    [7,2,"cat bytes"],
    [8,1,"echo nnnnnnnnnnnnnnnnnnnnnnnnnnnnnnnnnnnnnnnnnnnnnnnnnnnnnnnnnnnnnnnnnnnnnnnnnnnnnnnnnnnnnnnnnnnnnnnn > nnnnnnnnnnnnnnnnnnnnnnnnnnnnnnnnnnnnnnnnnnnnnnnnnnnnnnnnnnnnnnnnnnnnnnnnnnnnnnnnnnnnnnnnnnnnnnnn"]
  ]
}"#;

/// The names of the template's elements.
const ELEMENTS: [&str; 41] = [
    "!doctype",
    "html",
    "meta",
    "title",
    "style",
    "body",
    "header",
    "h1",
    "nav",
    "a",
    "input",
    "label",
    "main",
    "p",
    "strong",
    "div",
    "span",
    "svg",
    "path",
    "form",
    "i",
    "section",
    "h2",
    "small",
    "h3",
    "details",
    "summary",
    "code",
    "pre",
    "del",
    "ins",
    "u",
    "mark",
    "b",
    "time",
    "figure",
    "figcaption",
    "footer",
    "script",
    "h4",
    "small",
];

/// Parts of the page, and how often each is in it: harm as itself, and as it is shown.
const PARTS: [(&str, usize); 19] = [
    ("<script", 1),
    ("</script", 1),
    ("<style", 1),
    ("<title", 3),
    ("</title", 3),
    ("<img", 0),
    ("<b title", 0),
    ("<i>&amp;", 0),
    ("\u{202E}", 0),
    ("\u{2066}", 0),
    ("\u{85}", 0),
    ("\u{FFFD}", 0),
    ("<details id=l", 8),
    (
        "<h1>&lt;/title&gt;&lt;script&gt;alert(&quot;t&quot;)&lt;/script&gt;⟨U+001B⟩[31m⟨U+202E⟩</h1>",
        1,
    ),
    (
        "<h3>&quot;&gt;&lt;script&gt;alert(3)&lt;/script&gt;</h3>",
        1,
    ),
    (
        "<b class=who>&quot;&gt;&lt;script&gt;alert(3)&lt;/script&gt;</b>",
        8,
    ),
    ("<b class=who>⟨U+202E⟩&lt;/span&gt;&amp;⟨U+001B⟩]</b>", 12),
    ("<code>/d/⟨U+202E⟩gnp.⟨U+001B⟩[31m</code>", 2),
    ("⟨FE⟩⟨FF⟩", 4),
];

/// Fails if a byte is a control code other than a newline or a tab.
fn hold_bytes(page: &str) -> Result<(), Fail> {
    for byte in page.as_bytes() {
        let is_kept = *byte == b'\n' || *byte == b'\t';
        if (*byte < 32 && !is_kept) || *byte == 127 {
            return fail("a control code is in the page");
        }
    }
    Ok(())
}

/// Returns whether a text begins with the name of an element of the template, or with a slash
/// before it.
fn is_element(text: &str) -> bool {
    for name in ELEMENTS.iter() {
        let rest = text.strip_prefix("/").unwrap_or(text);
        if let Some(after) = rest.strip_prefix(*name) {
            if after.starts_with(">") || after.starts_with(" ") {
                return true;
            }
        }
    }
    false
}

/// Fails if a tag isn't one of the template's elements.
fn hold_tags(alloc: Global, page: &str) -> Result<(), Fail> {
    for part in page.split("<").skip(1) {
        if !is_element(part) {
            let told = format!(in alloc; "no element of the template: {part}")?;
            Err(told)?
        }
    }
    Ok(())
}

#[test]
fn pages_are_harmless(rt: HostRuntime) -> Result<(), Fail> {
    let alloc = rt.alloc();
    let given = Given {
        script: SCRIPT,
        cancelled: &[1, 3, 5, 7],
        names: &[
            (1, "\"><script>alert(3)</script>"),
            (2, "\u{202E}</span>&\u{1B}]"),
        ],
        title: "</title><script>alert(\"t\")</script>\u{1B}[31m\u{202E}",
        shows_all: false,
        source: Source::Played,
        is_recording: true,
    };
    let page = page_of(alloc, given)?;
    hold_bytes(page.as_str())?;
    hold_tags(alloc, page.as_str())?;
    hold_counts(alloc, page.as_str(), &PARTS)
}
