//! The program's edges: readers and writers that fail, and large inputs.
use crate::programs::words;
use crate::tables::{EMPTY, input_named};
use retro_cli::{Exit, Input, Output, run_with};
use retro_rows::text;
use retro_tree::NoMem;
use std::alloc::{AllocGlobal, Global};
use std::io;
use std::io::{ErrorKind, Read, Write};
use std::test::Fail;
use std::thread::Threads;

/// The report of an empty script.
const EMPTY_REPORT: &[u8] = b"{\"outputs\":[],\"sessions\":[],\"tree\":[]}\n";

/// No call fails.
const NEVER: u32 = u32::MAX;

/// What the call that fails does.
#[derive(Clone, Copy, Debug, PartialEq, Eq)]
enum Failure {
    /// It returns an error.
    Error(ErrorKind),
    /// It takes no byte.
    Nothing,
}

/// Gives one byte a call. The call `fails` fails once, and later calls go on.
#[derive(Drop)]
struct Drip<'a> {
    left: &'a [u8],
    calls: u32,
    fails: u32,
    kind: ErrorKind,
}

impl<'a> Drip<'a> {
    /// Returns a reader of these bytes.
    fn new(left: &'a [u8], fails: u32, kind: ErrorKind) -> Drip<'a> {
        Drip {
            left,
            calls: 0,
            fails,
            kind,
        }
    }
}

impl Read for Drip<'_> {
    fn read(&mut self, buf: &mut [u8]) -> io::Result<usize> {
        let call = self.calls;
        self.calls = self.calls.saturating_add(1);
        if call == self.fails {
            return Err(io::Error::from(self.kind));
        }
        match self.left {
            [first, rest @ ..] if !buf.is_empty() => {
                buf[0] = *first;
                self.left = rest;
                Ok(1)
            }
            _ => Ok(0),
        }
    }
}

/// Takes one byte a call. The call `fails` fails once, and later calls go on.
#[derive(Drop)]
struct Sip {
    held: Vec<u8>,
    calls: u32,
    fails: u32,
    failure: Failure,
}

impl Sip {
    /// Returns a writer that has taken nothing.
    fn new(alloc: Global, fails: u32, failure: Failure) -> Sip {
        Sip {
            held: Vec::new(alloc),
            calls: 0,
            fails,
            failure,
        }
    }
}

impl Write for Sip {
    fn write(&mut self, buf: &[u8]) -> io::Result<usize> {
        let call = self.calls;
        self.calls = self.calls.saturating_add(1);
        if call == self.fails {
            return match self.failure {
                Failure::Error(kind) => Err(io::Error::from(kind)),
                Failure::Nothing => Ok(0),
            };
        }
        match buf {
            [first, ..] => {
                self.held.push(*first)?;
                Ok(1)
            }
            [] => Ok(0),
        }
    }

    fn flush(&mut self) -> io::Result<()> {
        Ok(())
    }
}

/// Runs the program.
fn replay<T: Threads + Sync + AllocGlobal, R: Read, W: Write>(
    rt: &T,
    words: &[String],
    reader: &mut R,
    writer: &mut W,
) -> Exit {
    run_with(rt, words, &mut Input::new(reader), &mut Output::new(writer))
}

/// What the program is run on: words, and an input.
type Given<'a> = (&'a str, &'a str);

/// Runs the program with a reader and a writer that fail at these calls. Returns the exit, how
/// often each was called, and what was written.
fn run_edges<T: Threads + Sync + AllocGlobal>(
    rt: &T,
    (given, input): Given<'_>,
    (reads, kind): (u32, ErrorKind),
    (writes, failure): (u32, Failure),
) -> Result<(Exit, u32, u32, Vec<u8>), NoMem> {
    let words = words(rt.alloc(), given)?;
    let mut reader = Drip::new(input.as_bytes(), reads, kind);
    let mut writer = Sip::new(rt.alloc(), writes, failure);
    let exit = replay(rt, &words, &mut reader, &mut writer);
    Ok((exit, reader.calls, writer.calls, writer.held))
}

/// Returns whether a run ends at a call that fails to read, and writes nothing.
fn is_unread<T: Threads + Sync + AllocGlobal>(
    rt: &T,
    given: Given<'_>,
    call: u32,
    kind: ErrorKind,
) -> Result<bool, NoMem> {
    let (exit, reads, writes, _) = run_edges(rt, given, (call, kind), (NEVER, Failure::Nothing))?;
    Ok(exit == Exit::ReadFailed && reads == call.wrapping_add(1) && writes == 0)
}

/// Returns a number of calls.
fn count(calls: usize) -> u32 {
    u32::try_from(calls).unwrap_or(NEVER)
}

/// Returns the first call of a run whose failure to read doesn't end it, or `None`.
fn unread_from<T: Threads + Sync + AllocGlobal>(
    rt: &T,
    given: Given<'_>,
    kind: ErrorKind,
) -> Result<Option<u32>, NoMem> {
    for call in 0..=count(given.1.len()) {
        if !is_unread(rt, given, call, kind)? {
            return Ok(Some(call));
        }
    }
    Ok(None)
}

#[test]
fn a_failed_read_ends_the_run(rt: HostRuntime) -> Result<(), Fail> {
    for given in [
        ("retro replay", EMPTY),
        ("retro check", input_named("LOG")),
        ("retro repair --cancel 1", input_named("LOG")),
    ] {
        for kind in [ErrorKind::Other, ErrorKind::Interrupted] {
            assert_eq!(rt; unread_from(&rt, given, kind)?, None, "{kind:?}, {given:?}");
        }
    }
    Ok(())
}

/// Returns whether a run ends at a call that fails to write, and has written what comes before it.
/// A run has no call after the last byte of the whole answer.
fn is_unwritten<T: Threads + Sync + AllocGlobal>(
    rt: &T,
    given: Given<'_>,
    answer: &[u8],
    (call, failure): (u32, Failure),
) -> Result<bool, NoMem> {
    let (exit, _, writes, held) = run_edges(rt, given, (NEVER, ErrorKind::Other), (call, failure))?;
    let (wanted, calls) = if call as usize == answer.len() {
        (Exit::Done, call)
    } else {
        (Exit::WriteFailed, call.wrapping_add(1))
    };
    Ok(exit == wanted && writes == calls && Some(held.as_slice()) == answer.get(..call as usize))
}

/// Returns the first call of a run whose failure to write doesn't end it as it should, or `None`.
fn unwritten_from<T: Threads + Sync + AllocGlobal>(
    rt: &T,
    given: Given<'_>,
    answer: &[u8],
    failure: Failure,
) -> Result<Option<u32>, NoMem> {
    for call in 0..=count(answer.len()) {
        if !is_unwritten(rt, given, answer, (call, failure))? {
            return Ok(Some(call));
        }
    }
    Ok(None)
}

/// What `record` writes of the script `PAIR`.
const LOG_OF_PAIR: &str = concat!(
    r#"{"from":1,"lines":[[1,1,"echo a > f",[["cwd","/"],["canwrite","/f",0,"yes"],"#,
    r#"["put","/f",["f",""]],["canwrite","/f",2,"yes"],["grow","/f","610a"],"#,
    r#"["setstatus",0]],""],[2,1,"cat f",[["cwd","/"],["bytes","/f",["f","610a"]],"#,
    r#"["setstatus",0]],"610a"]],"log":2,"sessions":[[1,"/",0,[]]],"tree":[]}"#,
    "\n",
);

#[test]
fn a_failed_write_ends_the_run(rt: HostRuntime) -> Result<(), Fail> {
    for (given, answer) in [
        (("retro replay", EMPTY), EMPTY_REPORT),
        (
            ("retro record", input_named("PAIR")),
            LOG_OF_PAIR.as_bytes(),
        ),
    ] {
        for failure in [
            Failure::Error(ErrorKind::Other),
            Failure::Error(ErrorKind::Interrupted),
            Failure::Nothing,
        ] {
            let found = unwritten_from(&rt, given, answer, failure)?;
            assert_eq!(rt; found, None, "{failure:?}, {given:?}");
        }
    }
    Ok(())
}

/// Appends a text so many times.
fn push_times(out: &mut String, text: &str, count: u32) -> Result<(), NoMem> {
    for _ in 0..count {
        out.push_str(text)?;
    }
    Ok(())
}

/// Appends a thousand files in a directory.
fn push_files(alloc: Global, out: &mut String) -> Result<(), NoMem> {
    for number in 1000..2000_u32 {
        out.push_str(&format!(in alloc; r#",["/d/{number}",""]"#)?)?;
    }
    Ok(())
}

/// Appends a hundred lines, each with its number, a text of 4,091 letters, and its end.
fn push_numbered(
    alloc: Global,
    out: &mut String,
    start: &str,
    letter: &str,
    end: &str,
) -> Result<(), NoMem> {
    for number in 2..102_u32 {
        out.push_str(&format!(in alloc; ",[{number},{start}")?)?;
        push_times(out, letter, 4091)?;
        out.push_str(end)?;
    }
    Ok(())
}

/// Returns a script of a hundred lines of 4,096 bytes, `echo nn..`, in a directory with a thousand
/// files.
fn large_script(alloc: Global) -> Result<String, NoMem> {
    let mut script = text(alloc, r#"{"script":1,"tree":[["/d"]"#)?;
    push_files(alloc, &mut script)?;
    script.push_str(r#"],"sessions":[[1,"/d",0,[]]],"lines":[[1,1,""]"#)?;
    push_numbered(alloc, &mut script, r#"1,"echo "#, "n", r#""]"#)?;
    script.push_str("]}")?;
    Ok(script)
}

/// Returns the report of that script.
fn large_report(alloc: Global) -> Result<String, NoMem> {
    let mut report = text(alloc, r#"{"outputs":[[1,""]"#)?;
    push_numbered(alloc, &mut report, r#"""#, "6e", r#"0a"]"#)?;
    report.push_str(r#"],"sessions":[[1,"/d",0,[]]],"tree":[["/d"]"#)?;
    push_files(alloc, &mut report)?;
    report.push_str("]}\n")?;
    Ok(report)
}

/// Replays an input that gives one byte a call. Returns the exit, and what was written.
fn replayed<T: Threads + Sync + AllocGlobal>(
    rt: &T,
    input: &[u8],
) -> Result<(Exit, Vec<u8>), NoMem> {
    let words = words(rt.alloc(), "retro replay")?;
    let mut reader = Drip::new(input, NEVER, ErrorKind::Other);
    let mut out = Vec::new(rt.alloc());
    let exit = replay(rt, &words, &mut reader, &mut out);
    Ok((exit, out))
}

/// Returns whether a replay of the large script writes its report.
fn is_large_replayed<T: Threads + Sync + AllocGlobal>(rt: &T) -> Result<bool, NoMem> {
    let script = large_script(rt.alloc())?;
    let (exit, out) = replayed(rt, script.as_bytes())?;
    Ok(exit == Exit::Done && out.as_slice() == large_report(rt.alloc())?.as_bytes())
}

#[test]
fn large_scripts_are_replayed(rt: HostRuntime) -> Result<(), Fail> {
    assert!(rt; is_large_replayed(&rt)?, "another report");
    Ok(())
}

/// Runs the program without any word, even its own name.
fn unnamed<T: Threads + Sync + AllocGlobal>(rt: &T) -> Exit {
    let none: [String; 0] = [];
    let mut reader = EMPTY.as_bytes();
    let mut out = Vec::new(rt.alloc());
    replay(rt, &none, &mut reader, &mut out)
}

/// Compares a run without any word, and one on bytes that aren't UTF-8, with their exits.
#[test]
fn odd_inputs_are_refused(rt: HostRuntime) -> Result<(), Fail> {
    assert_eq!(rt; unnamed(&rt), Exit::Refused(31));
    assert_eq!(rt; replayed(&rt, &[0xff])?.0, Exit::Refused(12));
    Ok(())
}
