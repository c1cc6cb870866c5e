//! What utilities compute from texts alone.
use hex::encode;
use retro_rows::text;
use retro_text::{
    Condition, Cut, KnownLetters, Lines, PathTest, Request, Search, UsageError, Utility,
    before_bracket, echo_text, label, usage_text,
};
use retro_tree::NoMem;
use std::alloc::Global;

/// The option letters of `cut`.
const CUT: KnownLetters = KnownLetters {
    flags: b"s",
    arguments: b"bfd",
};

/// The option letters of `grep`.
const GREP: KnownLetters = KnownLetters {
    flags: b"Fvxcq",
    arguments: b"",
};

/// Returns bytes in hexadecimal digits after `0x`.
fn hexadecimal(alloc: Global, bytes: &[u8]) -> Result<String, NoMem> {
    let mut digits = text(alloc, "0x")?;
    digits.push_str(&encode(alloc, bytes)?)?;
    Ok(digits)
}

/// Returns bytes as text, or in hexadecimal digits if they aren't UTF-8.
fn shown(alloc: Global, bytes: &[u8]) -> Result<String, NoMem> {
    match str::from_utf8(bytes) {
        Ok(valid) => text(alloc, valid),
        Err(_) => hexadecimal(alloc, bytes),
    }
}

/// Returns `usage` for a usage error. Fails if an allocation failed.
fn refused(alloc: Global, error: UsageError) -> Result<String, NoMem> {
    match error {
        UsageError::Usage => text(alloc, "usage"),
        UsageError::NoMem => Err(NoMem),
    }
}

/// Appends texts, each after a space.
fn push_texts(out: &mut String, texts: &[String]) -> Result<(), NoMem> {
    for each in texts {
        out.push(' ')?;
        out.push_str(each.as_str())?;
    }
    Ok(())
}

/// Appends the flags that were given.
fn push_flags(out: &mut String, request: &Request<'_>, flags: &[u8]) -> Result<(), NoMem> {
    for letter in flags {
        if request.has(*letter) {
            out.push(char::from(*letter))?;
        }
    }
    Ok(())
}

/// Appends a letter with its argument.
fn push_argument(
    alloc: Global,
    out: &mut String,
    letter: char,
    argument: &[u8],
) -> Result<(), NoMem> {
    let argument = shown(alloc, argument)?;
    out.push_str(&format!(in alloc; " {letter}={argument}")?)
}

/// Appends the letters with their arguments.
fn push_arguments(
    alloc: Global,
    out: &mut String,
    request: &Request<'_>,
    letters: &[u8],
) -> Result<(), NoMem> {
    for letter in letters {
        if let Some(argument) = request.argument(*letter) {
            push_argument(alloc, out, char::from(*letter), argument)?;
        }
    }
    Ok(())
}

/// Returns a request as text.
fn request_text(
    alloc: Global,
    request: &Request<'_>,
    known: &KnownLetters<'_>,
) -> Result<String, NoMem> {
    let mut out = String::new(alloc);
    push_flags(&mut out, request, known.flags)?;
    push_arguments(alloc, &mut out, request, known.arguments)?;
    out.push_str(" |")?;
    push_texts(&mut out, request.operands())?;
    Ok(out)
}

/// Returns the options and operands in fields: the flags that were given, the letters with their
/// arguments, and after a bar the operands.
pub fn request(
    alloc: Global,
    flags: &str,
    arguments: &str,
    fields: &[String],
) -> Result<String, NoMem> {
    let known = KnownLetters {
        flags: flags.as_bytes(),
        arguments: arguments.as_bytes(),
    };
    match Request::of(alloc, &known, fields) {
        Ok(request) => request_text(alloc, &request, &known),
        Err(error) => refused(alloc, error),
    }
}

/// Appends a line in brackets.
fn push_line(alloc: Global, out: &mut String, line: &[u8]) -> Result<(), NoMem> {
    let line = shown(alloc, line)?;
    out.push_str(&format!(in alloc; "[{line}]")?)
}

/// Returns the lines of a text, each in brackets.
pub fn lines(alloc: Global, given: &str) -> Result<String, NoMem> {
    let mut out = String::new(alloc);
    for line in Lines::of(given.as_bytes()) {
        push_line(alloc, &mut out, line)?;
    }
    Ok(out)
}

/// Returns what `cut` leaves of a text.
fn cut_text(alloc: Global, cut: &Cut, given: &str) -> Result<String, NoMem> {
    let left = cut.text(alloc, given.as_bytes())?;
    shown(alloc, left.as_slice())
}

/// Returns what `cut` with this request leaves of a text.
fn cut_of(alloc: Global, request: &Request<'_>, given: &str) -> Result<String, NoMem> {
    match Cut::of(alloc, request) {
        Ok(cut) => cut_text(alloc, &cut, given),
        Err(error) => refused(alloc, error),
    }
}

/// Returns what `cut` with these options leaves of a text.
pub fn cut(alloc: Global, given: &str, fields: &[String]) -> Result<String, NoMem> {
    match Request::of(alloc, &CUT, fields) {
        Ok(request) => cut_of(alloc, &request, given),
        Err(error) => refused(alloc, error),
    }
}

/// Returns the status of a `grep` without faults over one text, and what it prints.
fn found_text(
    alloc: Global,
    search: &Search<'_>,
    label: &[u8],
    given: &str,
) -> Result<String, NoMem> {
    let found = search.run(alloc, label, given.as_bytes())?;
    let output = shown(alloc, found.output.as_slice())?;
    format!(in alloc; "{} {output}", search.status(found.selected, false))
}

/// Returns the status of a `grep` with this request over one text, and what it prints, with a
/// label.
fn grep_of(alloc: Global, request: &Request<'_>, name: &str, given: &str) -> Result<String, NoMem> {
    let Some((search, files)) = Search::of(request) else {
        return text(alloc, "usage");
    };
    let label = label(alloc, files.len() > 1, name)?;
    found_text(alloc, &search, label.as_slice(), given)
}

/// Returns the status of a `grep` without faults over one text, and what it prints, with a label.
pub fn grep(alloc: Global, name: &str, given: &str, fields: &[String]) -> Result<String, NoMem> {
    match Request::of(alloc, &GREP, fields) {
        Ok(request) => grep_of(alloc, &request, name, given),
        Err(error) => refused(alloc, error),
    }
}

/// Returns the status of a `grep` with this request that selected a line or not, and met a fault or
/// not.
fn status_of(
    alloc: Global,
    request: &Request<'_>,
    selected: bool,
    fault: bool,
) -> Result<String, NoMem> {
    match Search::of(request) {
        Some((search, _)) => format!(in alloc; "{}", search.status(selected, fault)),
        None => text(alloc, "usage"),
    }
}

/// Returns the status of a `grep` that selected a line or not, and met a fault or not.
pub fn grep_status(
    alloc: Global,
    selected: &str,
    fault: &str,
    fields: &[String],
) -> Result<String, NoMem> {
    match Request::of(alloc, &GREP, fields) {
        Ok(request) => status_of(alloc, &request, selected == "selected", fault == "fault"),
        Err(error) => refused(alloc, error),
    }
}

/// Returns the word for what a test of a path tests.
fn test_word(test: PathTest) -> &'static str {
    match test {
        PathTest::Exists => "exists",
        PathTest::IsFile => "file",
        PathTest::IsDir => "dir",
    }
}

/// Returns the value of the condition of operands: `true`, `false`, or the path that it asks for.
pub fn condition(alloc: Global, operands: &[String]) -> Result<String, NoMem> {
    match Condition::of(operands) {
        None => text(alloc, "usage"),
        Some(Condition::Known(holds)) => format!(in alloc; "{holds}"),
        Some(Condition::Path(test, path)) => format!(in alloc; "{} {path}", test_word(test)),
    }
}

/// Returns the value of the condition of the operands of `[`.
pub fn bracket(alloc: Global, operands: &[String]) -> Result<String, NoMem> {
    match before_bracket(operands) {
        None => text(alloc, "usage"),
        Some(operands) => condition(alloc, operands),
    }
}

/// Returns what `echo` prints.
pub fn echo(alloc: Global, operands: &[String]) -> Result<String, NoMem> {
    let printed = echo_text(alloc, operands)?;
    shown(alloc, printed.as_slice())
}

/// Returns what a fault in the fields of a utility prints.
pub fn usage(alloc: Global, name: &str) -> Result<String, NoMem> {
    let printed = usage_text(alloc, name)?;
    shown(alloc, printed.as_slice())
}

/// Returns the name of the utility with this name, or `none`.
pub fn utility(alloc: Global, name: &str) -> Result<String, NoMem> {
    match Utility::of(name) {
        Some(utility) => text(alloc, utility.name()),
        None => text(alloc, "none"),
    }
}
