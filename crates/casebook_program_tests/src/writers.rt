//! Tests of writers that fail.
use crate::memory::{Memory, words};
use casebook_cli::{Exit, Output, run_with};
use retro_rows::fail;
use std::alloc::AllocGlobal;
use std::io;
use std::io::{ErrorKind, Write};
use std::test::Fail;
use std::thread::Threads;

/// Takes one byte a call, up to a call that fails.
#[derive(Drop)]
struct Sip {
    held: Vec<u8>,
    calls: usize,
    fails: usize,
}

impl Write for Sip {
    fn write(&mut self, buf: &[u8]) -> io::Result<usize> {
        if self.calls == self.fails {
            return Err(io::Error::from(ErrorKind::BrokenPipe));
        }
        match buf {
            [first, ..] => {
                self.held.push(*first)?;
                self.calls = self.calls.saturating_add(1);
                Ok(1)
            }
            [] => Ok(0),
        }
    }

    fn flush(&mut self) -> io::Result<()> {
        Ok(())
    }
}

/// Returns how many bytes a writer takes that fails at a call, if the program says that it failed.
fn taken<T: Threads + Sync + AllocGlobal>(
    rt: &T,
    given: &str,
    fails: usize,
) -> Result<usize, Fail> {
    let words = words(rt.alloc(), given)?;
    let mut writer = Sip {
        held: Vec::new(rt.alloc()),
        calls: 0,
        fails,
    };
    let memory = Memory::new(rt.alloc());
    let mut output = Output::new(&mut writer);
    match run_with(rt, words.as_slice(), &memory, false, &mut output) {
        Exit::WriteFailed => Ok(writer.held.len()),
        _ => fail("the program doesn't say that it failed"),
    }
}

#[test]
fn failed_writes_are_told(rt: HostRuntime) -> Result<(), Fail> {
    for fails in 0..6_usize {
        if taken(&rt, "lines log", fails)? != fails {
            return fail("another number of bytes");
        }
    }
    Ok(())
}
