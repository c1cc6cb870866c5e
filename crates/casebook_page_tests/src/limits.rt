//! Long texts, and logs of many lines.
use crate::given::{Given, page_of};
use crate::reading::hold_counts;
use casebook_view::Source;
use std::alloc::Global;
use std::test::Fail;

/// How many lines a log has that is over the limit.
const MANY: u32 = 5_001;

/// Parts of the page of long outputs. Line 2 prints `first` and 100 lines of 8 bytes, and in the
/// repaired run the 100 lines and a diagnostic; both are shown twice, in halves of 32 lines. Line 4
/// prints the 100 lines alone. Line 3 prints `first` and a line of 9,000 bytes, and in the repaired
/// run that line with a diagnostic of 33 bytes at its end; 4,096 bytes of it are shown, once each.
/// Sessions without a name are called by their numbers.
const CUT: [(&str, usize); 11] = [
    ("<u>.. 37 lines, 296 bytes left out ..</u>\n", 4),
    ("<u>.. 36 lines, 288 bytes left out ..</u>\n", 1),
    ("left out", 5),
    ("line 31\n", 3),
    ("line 32\n", 0),
    ("line 67\n", 0),
    ("line 68\n", 3),
    (
        "x<u> .. 4904 more bytes in this line</u><u> no newline</u></del>\n",
        1,
    ),
    ("x<u> .. 4937 more bytes in this line</u></ins>\n", 1),
    ("<p class=io>line 1, session <b class=who>2</b></p>", 1),
    ("<p class=io>line 3, session <b class=who>1</b></p>", 1),
];

/// Parts of the page of a log of 5,001 lines, of which the first is cancelled and the others are
/// untouched.
const FOLDED: [(&str, usize); 3] = [
    ("<details id=l", 1),
    (
        "<summary>5000 untouched, not written here</summary></details>\n",
        1,
    ),
    ("5001 lines of 1 session", 1),
];

/// The same, if all rows are asked for.
const WHOLE: [(&str, usize); 3] = [
    ("<details id=l", 5001),
    ("not written here", 0),
    ("<summary>5000 untouched</summary>", 1),
];

/// Returns a script of so many lines, of which the first writes a file.
fn long_script(alloc: Global) -> Result<String, Fail> {
    let mut script = String::from_str(
        alloc,
        r#"{"script":1,"tree":[],"sessions":[[1,"/",0,[]]],"lines":[[1,1,"echo a > f"]"#,
    )?;
    for number in 2..MANY + 1 {
        script.push_str(format!(in alloc; ",[{number},1,\"echo a\"]")?.as_str())?;
    }
    script.push_str("]}")?;
    Ok(script)
}

/// Appends the hexadecimal digits of 100 lines, `line 00` to `line 99`.
fn push_lines(alloc: Global, script: &mut String) -> Result<(), Fail> {
    for tens in 0..10 {
        for ones in 0..10 {
            script.push_str(format!(in alloc; "6c696e65203{tens}3{ones}0a")?.as_str())?;
        }
    }
    Ok(())
}

/// Returns a script with a file of 100 lines and one of a line of 9,000 bytes.
fn wide_script(alloc: Global) -> Result<String, Fail> {
    let mut script = String::from_str(alloc, r#"{"script":1,"tree":[["/big",""#)?;
    push_lines(alloc, &mut script)?;
    script.push_str(r#""],["/one",""#)?;
    for _ in 0..9_000 {
        script.push_str("78")?;
    }
    script.push_str(
        r#""]],"sessions":[[1,"/",0,[]],[2,"/",0,[]]],"lines":[[1,2,"echo first > f"],[2,1,"cat f big"],[3,1,"cat f one"],[4,1,"cat big"]]}"#,
    )?;
    Ok(script)
}

#[test]
fn long_texts_are_cut(rt: HostRuntime) -> Result<(), Fail> {
    let alloc = rt.alloc();
    let script = wide_script(alloc)?;
    let given = Given {
        script: script.as_str(),
        cancelled: &[1],
        names: &[],
        title: "Long texts",
        shows_all: false,
        source: Source::Played,
        is_recording: true,
    };
    let page = page_of(alloc, given)?;
    hold_counts(alloc, page.as_str(), &CUT)
}

/// Compares the page of a log of many lines.
fn hold_many(alloc: Global, shows_all: bool, wanted: &[(&str, usize)]) -> Result<(), Fail> {
    let script = long_script(alloc)?;
    let given = Given {
        script: script.as_str(),
        cancelled: &[1],
        names: &[],
        title: "Many lines",
        shows_all,
        source: Source::Played,
        is_recording: true,
    };
    let page = page_of(alloc, given)?;
    hold_counts(alloc, page.as_str(), wanted)
}

#[test]
fn untouched_lines_of_long_logs_are_counted(rt: HostRuntime) -> Result<(), Fail> {
    let alloc = rt.alloc();
    hold_many(alloc, false, &FOLDED)?;
    hold_many(alloc, true, &WHOLE)
}
