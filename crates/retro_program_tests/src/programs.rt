//! Runs of the program, and lines that it runs.
use crate::tables::input_named;
use hex::decode;
use retro_cli::{Exit, Input, Output, run_with};
use retro_rows::{fail, text, utf8};
use retro_tree::NoMem;
use serde_json::Value;
use std::alloc::{AllocGlobal, Global};
use std::test::Fail;
use std::thread::Threads;

/// What every script of shell rows has before and after its own entries of the tree.
const BEFORE_ENTRIES: &str = concat!(
    r#"{"script":1,"tree":[["/etc"],["/etc/passwd","726f6f743a783a303a303a723a2f3a2f62696e2f"#,
    "73680a616c6963653a783a3130303a3130303a613a2f683a2f62696e2f73680a6d616c",
    r#"6c6f72793a783a3230303a3230303a6d3a2f746d703a2f62696e2f73680a"],["/h"],["/h/d"],["/tmp"]"#,
);

const AFTER_ENTRIES: &str = concat!(
    r#"],"sessions":[[1,"/h",0,[["HOME","/h"]]],[2,"/tmp",0,[["HOME","/tmp"]]]],"lines":["#,
);

/// Appends the words of a text, which spaces separate.
fn push_words(alloc: Global, words: &mut Vec<String>, given: &str) -> Result<(), NoMem> {
    for word in given.split(' ') {
        words.push(text(alloc, word)?)?;
    }
    Ok(())
}

/// Appends the words of a text that begins with a word in quotes, without the first quote.
fn push_quoted(alloc: Global, words: &mut Vec<String>, given: &str) -> Result<(), NoMem> {
    match given.split_once('\'') {
        Some((word, more)) => {
            words.push(text(alloc, word)?)?;
            match more.strip_prefix(" ") {
                Some(more) => push_words(alloc, words, more),
                None => Ok(()),
            }
        }
        None => Ok(words.push(text(alloc, given)?)?),
    }
}

/// Returns the words of a text. Spaces separate them, and one word may be in single quotes and have
/// spaces itself.
pub fn words(alloc: Global, given: &str) -> Result<Vec<String>, NoMem> {
    let mut words = Vec::new(alloc);
    match given.split_once(" '") {
        Some((before, quoted)) => {
            push_words(alloc, &mut words, before)?;
            push_quoted(alloc, &mut words, quoted)?;
        }
        None => push_words(alloc, &mut words, given)?,
    }
    Ok(words)
}

/// Runs the program, and appends what it wrote.
fn push_output<T: Threads + Sync + AllocGlobal>(
    rt: &T,
    words: &[String],
    input: &str,
    out: &mut Vec<u8>,
) -> Exit {
    let mut reader = input.as_bytes();
    run_with(
        rt,
        words,
        &mut Input::new(&mut reader),
        &mut Output::new(out),
    )
}

/// Runs the program. Returns how it ended, and what it wrote.
fn output<T: Threads + Sync + AllocGlobal>(
    rt: &T,
    given: &str,
    input: &str,
) -> Result<(Exit, Vec<u8>), NoMem> {
    let words = words(rt.alloc(), given)?;
    let mut out = Vec::new(rt.alloc());
    let exit = push_output(rt, &words, input, &mut out);
    Ok((exit, out))
}

/// Returns what the program writes.
fn written<T: Threads + Sync + AllocGlobal>(
    rt: &T,
    given: &str,
    input: &str,
) -> Result<String, Fail> {
    let (_, out) = output(rt, given, input)?;
    match String::from_utf8(out) {
        Ok(written) => Ok(written),
        Err(_) => fail("not UTF-8"),
    }
}

/// Runs the program once for each text of words, each time on what it wrote before. Returns what
/// `run` returns for the last words.
pub fn run_in_turn<T: Threads + Sync + AllocGlobal>(
    rt: &T,
    words: &[String],
    last: &str,
    input: &str,
) -> Result<String, Fail> {
    let mut document = text(rt.alloc(), input_named(input))?;
    for given in words {
        document = written(rt, given, &document)?;
    }
    run(rt, last, &document)
}

/// Returns an exit status, what was written, and after it the line for standard error.
fn ended(alloc: Global, exit: Exit, mut out: Vec<u8>) -> Result<String, Fail> {
    exit.write_message(&mut out)?;
    let out = utf8(out.as_slice())?;
    Ok(format!(in alloc; "{} {}", exit.status(), out.trim_end())?)
}

/// Runs the program on words and an input. Returns the exit status, what it wrote, and its line for
/// standard error.
pub fn run<T: Threads + Sync + AllocGlobal>(
    rt: &T,
    given: &str,
    input: &str,
) -> Result<String, Fail> {
    let (exit, out) = output(rt, given, input_named(input))?;
    ended(rt.alloc(), exit, out)
}

/// Runs the program on the log of a script, without and with each of the further words. Returns
/// what `run` returns if that is always the same, and otherwise what differs.
pub fn run_with_each<T: Threads + Sync + AllocGlobal>(
    rt: &T,
    given: &str,
    further: &[String],
    script: &str,
) -> Result<String, Fail> {
    let log = written(rt, "retro record", input_named(script))?;
    let answer = run(rt, given, &log)?;
    for more in further {
        let words = format!(in rt.alloc(); "{given} {more}")?;
        let other = run(rt, &words, &log)?;
        if other != answer {
            return Ok(format!(in rt.alloc(); "with {more}: {other}")?);
        }
    }
    Ok(answer)
}

/// Returns a line of session 1 with its number, as scripts write it.
fn line_json(alloc: Global, number: usize, line: &str) -> Result<String, NoMem> {
    let line = Value::String(text(alloc, line)?).to_string(alloc)?;
    format!(in alloc; "[{number},1,{line}]")
}

/// Appends lines of session 1, numbered from 1.
pub fn push_lines(alloc: Global, script: &mut String, lines: &[String]) -> Result<(), NoMem> {
    for (index, line) in lines.iter().enumerate() {
        if index > 0 {
            script.push_str(",")?;
        }
        script.push_str(&line_json(alloc, index.wrapping_add(1), line)?)?;
    }
    Ok(())
}

/// Returns a script of so many lines of session 1 with the same text, over an empty tree.
fn script_of_many(alloc: Global, count: &str, line: &str) -> Result<String, Fail> {
    let mut lines = Vec::new(alloc);
    for _ in 0..count.parse::<u32>()? {
        lines.push(text(alloc, line)?)?;
    }
    let mut script = text(
        alloc,
        r#"{"script":1,"tree":[],"sessions":[[1,"/",0,[]]],"lines":["#,
    )?;
    push_lines(alloc, &mut script, lines.as_slice())?;
    script.push_str("]}")?;
    Ok(script)
}

/// Does as [`run_in_turn`], on a script of so many lines with the same text.
pub fn run_on_many<T: Threads + Sync + AllocGlobal>(
    rt: &T,
    words: &[String],
    last: &str,
    (count, line): (&str, &str),
) -> Result<String, Fail> {
    let script = script_of_many(rt.alloc(), count, line)?;
    run_in_turn(rt, words, last, script.as_str())
}

/// Returns the script of session 1's lines, over a tree with more entries.
fn script_of(alloc: Global, entries: &str, lines: &[String]) -> Result<String, NoMem> {
    let mut script = format!(in alloc; "{BEFORE_ENTRIES}{entries}{AFTER_ENTRIES}")?;
    push_lines(alloc, &mut script, lines)?;
    script.push_str("]}")?;
    Ok(script)
}

/// Returns session 1's status in a report, and what its last line printed.
fn last_line(alloc: Global, report: &Value) -> Option<(u64, &str)> {
    let outputs = report.get("outputs")?.as_array()?;
    let printed = outputs.last()?.as_array()?.get(1)?.as_str()?;
    let sessions = report.get("sessions")?.as_array()?;
    Some((sessions.first()?.as_array()?.get(2)?.as_u64()?, printed))
}

/// Returns a status, and the text of hexadecimal digits.
fn printed_text(alloc: Global, status: u64, digits: &str) -> Result<String, Fail> {
    let printed = decode(alloc, digits)?;
    let printed = utf8(printed.as_slice())?;
    Ok(format!(in alloc; "{status} {printed}")?)
}

/// Returns session 1's status in a report, and what its last line printed.
fn report_text(alloc: Global, report: &Value) -> Result<String, Fail> {
    match last_line(alloc, report) {
        Some((status, digits)) => printed_text(alloc, status, digits),
        None => fail("no report"),
    }
}

/// Replays a script of session 1's lines. Returns the session's status and the output of the last
/// line.
pub fn shell<T: Threads + Sync + AllocGlobal>(
    rt: &T,
    entries: &str,
    lines: &[String],
) -> Result<String, Fail> {
    let script = script_of(rt.alloc(), entries, lines)?;
    let out = written(rt, "retro replay", &script)?;
    let report = Value::from_slice(rt.alloc(), out.as_bytes())?;
    report_text(rt.alloc(), &report)
}
