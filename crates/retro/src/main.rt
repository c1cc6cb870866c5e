//! The program `retro`, run on the process's arguments, standard input, output and error.
#![tactic(auto)]

use retro_cli::{BAD_WORDS, Exit, Input, Output, run_with};
use std::io::ErrorKind;
use std::process::ExitCode;

/// Writes the message of an exit on standard error, and returns the exit's status.
fn end(rt: &HostRuntime, exit: Exit) -> ExitCode {
    // If standard error takes nothing, the status is the same.
    let _ = exit.write_message(&mut rt.stderr());
    ExitCode::from(exit.status())
}

fn main(rt: HostRuntime) -> ExitCode {
    let words: Vec<String> = match std::env::args(&rt) {
        Ok(args) => match args.collect(rt.alloc()) {
            Ok(words) => words,
            Err(_) => return end(&rt, Exit::OutOfMemory),
        },
        Err(e) if e.kind() == ErrorKind::OutOfMemory => return end(&rt, Exit::OutOfMemory),
        // A word that isn't UTF-8 is a bad word.
        Err(_) => return end(&rt, Exit::Refused(BAD_WORDS)),
    };
    let mut input = Input::new(rt.stdin());
    let mut output = Output::new(rt.stdout());
    let exit = run_with(&rt, &words, &mut input, &mut output);
    end(&rt, exit)
}
